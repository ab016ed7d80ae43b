// Worked cases: a command line over two files, and what has to come of it.
use crate::faults::Faults;
use crate::outcome::Outcome;
use anyhow::{Context, Result};
use serde_json::Value;
use std::alloc::Global;
use std::fs;
use std::rt::Files;

/// The bytes of the files `s.bt`, `r.bin` and `a.bin`.
pub(crate) struct CaseFiles {
    pub script: Vec<u8>,
    pub recording: Vec<u8>,
    pub account: Vec<u8>,
}

// Written out, so that it is one call wherever such a value is let go.
impl Drop for CaseFiles {
    fn drop(self) {
        let Self {
            script: _,
            recording: _,
            account: _,
        } = self;
    }
}

/// The words of a command line, the files, what fails of shelf and sinks, what may come, how often it is tried, whether the same comes on
/// threads, without the word `--serial`, and how many of the accounts that come are verified.
pub(crate) struct Case {
    pub words: Vec<String>,
    pub files: CaseFiles,
    pub faults: Faults,
    pub wanted: Vec<Outcome>,
    pub times: u64,
    pub on_threads: bool,
    pub verifies: u64,
}

// Written out, so that it is one call wherever such a value is let go.
impl Drop for Case {
    fn drop(self) {
        let Self {
            words: _,
            files: _,
            faults: _,
            wanted: _,
            times: _,
            on_threads: _,
            verifies: _,
        } = self;
    }
}

/// The text of a member of an object.
fn text_of<'v>(value: &'v Value, name: &str) -> Result<&'v str> {
    value
        .get(name)
        .and_then(Value::as_str)
        .context(format_args!("no text {name}"))
}

/// The bytes of a text of an object.
fn bytes_of(alloc: Global, value: &Value, name: &str) -> Result<Vec<u8>> {
    Ok(Vec::from_slice(alloc, text_of(value, name)?.as_bytes())?)
}

/// The list of an object.
fn list_of<'v>(value: &'v Value, name: &str) -> Result<&'v Vec<Value>> {
    value
        .get(name)
        .and_then(Value::as_array)
        .context(format_args!("no list {name}"))
}

/// The words of a case.
fn words_of(alloc: Global, value: &Value) -> Result<Vec<String>> {
    let mut words = Vec::new(alloc);
    for word in list_of(value, "words")? {
        words.push(String::from_str(alloc, word.as_str().context("no word")?)?)?;
    }
    Ok(words)
}

/// The one output that may come: the text `out`, or the bytes of `out_hex`, which is hexadecimal.
fn out_of(alloc: Global, value: &Value) -> Result<Vec<u8>> {
    match value.get("out_hex").and_then(Value::as_str) {
        Some(digits) => Ok(hex::decode(alloc, digits)?),
        None => bytes_of(alloc, value, "out"),
    }
}

/// What comes of a case with this output.
fn outcome_with(alloc: Global, value: &Value, status: u64, out: Vec<u8>) -> Result<Outcome> {
    let err = bytes_of(alloc, value, "err")?;
    Ok(Outcome { status, out, err })
}

/// What may come where several schedules may be taken: the outputs are the texts of the list `outs`.
fn several_of(alloc: Global, value: &Value, status: u64) -> Result<Vec<Outcome>> {
    let mut wanted = Vec::new(alloc);
    for out in list_of(value, "outs")? {
        let text = out.as_str().context("no output")?;
        let out = Vec::from_slice(alloc, text.as_bytes())?;
        wanted.push(outcome_with(alloc, value, status, out)?)?;
    }
    Ok(wanted)
}

/// What may come of a case. It is left open where accounts are verified.
fn wanted_of(alloc: Global, value: &Value) -> Result<Vec<Outcome>> {
    let status = value.get("status").and_then(Value::as_u64);
    let status = status.context("no status")?;
    if value.get("verifies").is_some() {
        return Ok(Vec::new(alloc));
    }
    if value.get("outs").is_some() {
        return several_of(alloc, value, status);
    }
    let outcome = outcome_with(alloc, value, status, out_of(alloc, value)?)?;
    Ok(vec![in alloc; outcome]?)
}

/// The recording of a case: the bytes of the file that `recording_file` names, or those of `recording`, which
/// is hexadecimal.
fn recording_of<R: Files + AllocGlobal>(rt: &R, value: &Value) -> Result<Vec<u8>> {
    match value.get("recording_file").and_then(Value::as_str) {
        Some(name) => Ok(fs::read(rt, name).context(format_args!("reading {name}"))?),
        None => Ok(hex::decode(rt.alloc(), text_of(value, "recording")?)?),
    }
}

/// The account of a case: the bytes of `account`, which is hexadecimal, and none where it is left out.
fn account_of(alloc: Global, value: &Value) -> Result<Vec<u8>> {
    let digits = value.get("account").and_then(Value::as_str);
    Ok(hex::decode(alloc, digits.unwrap_or(""))?)
}

/// The files of a case.
fn files_of<R: Files + AllocGlobal>(rt: &R, value: &Value) -> Result<CaseFiles> {
    let alloc = rt.alloc();
    Ok(CaseFiles {
        script: bytes_of(alloc, value, "script")?,
        recording: recording_of(rt, value)?,
        account: account_of(alloc, value)?,
    })
}

/// A number of an object, which may be left out.
fn number_or(value: &Value, name: &str, otherwise: u64) -> u64 {
    value.get(name).and_then(Value::as_u64).unwrap_or(otherwise)
}

/// The case of an object.
fn case_of<R: Files + AllocGlobal>(rt: &R, value: &Value) -> Result<Case> {
    let alloc = rt.alloc();
    Ok(Case {
        words: words_of(alloc, value)?,
        files: files_of(rt, value)?,
        faults: Faults::of(alloc, value)?,
        wanted: wanted_of(alloc, value)?,
        times: number_or(value, "times", 1),
        on_threads: value.get("threads").is_some(),
        verifies: number_or(value, "verifies", 0),
    })
}

impl Case {
    /// The case of a line: an object whose recording may stand in a file and whose other bytes are texts. It may have
    /// hexadecimal `out_hex` or several `outs` in place of its `out`, `times`, the number of tries, which is else 1, `threads`, where no
    /// schedule changes the answer, a hexadecimal `account`, and the members that [`Faults`] has. Or it has `verifies`, how often its words
    /// write an account that has to be true, in the place of what comes.
    pub fn of<R: Files + AllocGlobal>(rt: &R, line: &str) -> Result<Case> {
        let value = Value::from_str(rt.alloc(), line)?;
        case_of(rt, &value)
    }
}
