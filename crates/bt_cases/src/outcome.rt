// What comes of a case.
use crate::case::Case;
use bt_core::memory::Memory;
use bt_top::serve::serve;
use mem_io::mem_shelf::MemShelf;
use mem_io::mem_sink::MemSink;
use std::alloc::Global;
use std::fmt;
use std::sync::Wait;
use std::thread::Threads;
use turn_lock::gate::Open;

/// The exit status, and the bytes that were written to the output and to `err`.
#[derive(PartialEq, Eq)]
pub(crate) struct Outcome {
    pub status: u64,
    pub out: Vec<u8>,
    pub err: Vec<u8>,
}

// Written out, so that it is one call wherever such a value is let go.
impl Drop for Outcome {
    fn drop(self) {
        let Self {
            status: _,
            out: _,
            err: _,
        } = self;
    }
}

/// Bytes as text, where they are such.
fn shown(bytes: &[u8]) -> &str {
    str::from_utf8(bytes).unwrap_or("bytes that are no text")
}

impl fmt::Display for Outcome {
    fn fmt<W: fmt::Write>(&self, f: &mut fmt::Formatter<W>) -> fmt::Result {
        let status = self.status;
        let out = shown(self.out.as_slice());
        let err = shown(self.err.as_slice());
        write!(f, "status {status}, out {out:?}, err {err:?}")
    }
}

/// A file of this name.
fn file(alloc: Global, name: &str, bytes: &[u8]) -> Result<(String, Vec<u8>), Memory> {
    let name = String::from_str(alloc, name)?;
    Ok((name, Vec::from_slice(alloc, bytes)?))
}

/// The files of a case, by their names, with this account.
fn files_of(alloc: Global, case: &Case, account: &[u8]) -> Result<Vec<(String, Vec<u8>)>, Memory> {
    let mut files = Vec::with_capacity(alloc, 3)?;
    files.push(file(alloc, "s.bt", case.files.script.as_slice())?)?;
    files.push(file(alloc, "r.bin", case.files.recording.as_slice())?)?;
    files.push(file(alloc, "a.bin", account)?)?;
    Ok(files)
}

/// What the top call answers to words on files and sinks.
fn status_over<R: Threads + Wait + Sync>(
    rt: &R,
    alloc: Global,
    words: &[String],
    shelf: &mut MemShelf,
    out: &mut MemSink,
    err: &mut MemSink,
) -> u64 {
    u64::from(serve(rt, alloc, words, shelf, out, err, &Open).status)
}

/// What was written to both sinks, beside the status.
fn outcome_with(
    alloc: Global,
    status: u64,
    out: &MemSink,
    err: &MemSink,
) -> Result<Outcome, Memory> {
    let out = Vec::from_slice(alloc, out.taken())?;
    let err = Vec::from_slice(alloc, err.taken())?;
    Ok(Outcome { status, out, err })
}

/// What the top call answers and writes to words over the files of a case, with this account, on a shelf and sinks that fail as the case says.
pub(crate) fn outcome_over<R: Threads + Wait + Sync>(
    rt: &R,
    alloc: Global,
    case: &Case,
    account: &[u8],
    words: &[String],
) -> Result<Outcome, Memory> {
    let mut shelf = case.faults.shelf(alloc, files_of(alloc, case, account)?)?;
    let mut out = case.faults.output(alloc)?;
    let mut err = case.faults.errors(alloc)?;
    let status = status_over(rt, alloc, words, &mut shelf, &mut out, &mut err);
    outcome_with(alloc, status, &out, &err)
}

/// What the top call answers and writes to words over the files of a case.
pub(crate) fn outcome_of<R: Threads + Wait + Sync>(
    rt: &R,
    alloc: Global,
    case: &Case,
    words: &[String],
) -> Result<Outcome, Memory> {
    outcome_over(rt, alloc, case, case.files.account.as_slice(), words)
}

/// The words but `--serial`.
fn words_on_threads(alloc: Global, words: &[String]) -> Result<Vec<String>, Memory> {
    let mut others = Vec::new(alloc);
    for word in words {
        if word.as_str() != "--serial" {
            others.push(String::from_str(alloc, word.as_str())?)?;
        }
    }
    Ok(others)
}

/// The first outcome of so many tries of words that may not come.
fn differing_by<R: Threads + Wait + Sync>(
    rt: &R,
    alloc: Global,
    case: &Case,
    words: &[String],
    times: u64,
) -> Result<Option<Outcome>, Memory> {
    for _ in 0..times {
        let came = outcome_of(rt, alloc, case, words)?;
        if !case.wanted.as_slice().contains(&came) {
            return Ok(Some(came));
        }
    }
    Ok(None)
}

/// The first outcome of the tries of a case that may not come, and else that of a try on threads.
pub(crate) fn differing<R: Threads + Wait + Sync>(
    rt: &R,
    alloc: Global,
    case: &Case,
) -> Result<Option<Outcome>, Memory> {
    let words = case.words.as_slice();
    let differs = differing_by(rt, alloc, case, words, case.times)?;
    if differs.is_some() || !case.on_threads {
        return Ok(differs);
    }
    let words = words_on_threads(alloc, words)?;
    differing_by(rt, alloc, case, words.as_slice(), 1)
}
