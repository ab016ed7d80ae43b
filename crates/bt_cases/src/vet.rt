// The check of the code of cases: whatever script is compiled, `vet` accepts it.
use crate::case::Case;
use crate::outcome::{Outcome, outcome_of};
use anyhow::{Context, Result};
use std::alloc::Global;
use std::sync::Wait;
use std::thread::Threads;

/// Whether the script of a case is compiled: it is read by `run`, `check` or `code`, which ends with status 0, and nothing fails.
pub(crate) fn is_compiled(case: &Case) -> bool {
    let reads = match case.words.as_slice() {
        [] => false,
        [first, ..] => matches!(first.as_str(), "run" | "check" | "code"),
    };
    reads
        && case.faults.are_none()
        && case
            .wanted
            .as_slice()
            .iter()
            .all(|wanted| wanted.status == 0)
}

/// What comes of a command over the script and the recording of a case.
fn outcome_by<R: Threads + Wait + Sync>(
    rt: &R,
    alloc: Global,
    case: &Case,
    command: &str,
) -> Result<Outcome> {
    let mut words = Vec::new(alloc);
    for word in [command, "s.bt", "r.bin"] {
        words.push(String::from_str(alloc, word)?)?;
    }
    Ok(outcome_of(rt, alloc, case, words.as_slice())?)
}

/// Adds the line of a body that is accepted, by the line of its listing and the number of its slots.
fn push_line(alloc: Global, lines: &mut Vec<u8>, body: &str, slots: u64) -> Result<()> {
    let most = slots.saturating_mul(4097);
    let line = format!(in alloc; "{body}: at most {most} instructions\n")?;
    lines.extend_from_slice(line.as_bytes())?;
    Ok(())
}

/// The lines that are owed where all bodies of a listing are accepted.
fn lines_of(alloc: Global, listing: &str) -> Result<Vec<u8>> {
    let mut lines = Vec::new(alloc);
    let mut body = None;
    let mut slots = 0u64;
    for line in listing.lines() {
        if !line.starts_with("probe ") {
            slots = slots.saturating_add(1);
            continue;
        }
        if let Some(body) = body {
            push_line(alloc, &mut lines, body, slots)?;
        }
        body = Some(line);
        slots = 0;
    }
    if let Some(body) = body {
        push_line(alloc, &mut lines, body, slots)?;
    }
    Ok(lines)
}

/// What is owed by the listing that `code` writes.
fn owed_by(alloc: Global, code: &Outcome) -> Result<Outcome> {
    let listing = str::from_utf8(code.out.as_slice()).context("a listing that is no text")?;
    let out = lines_of(alloc, listing)?;
    Ok(Outcome {
        status: 0,
        out,
        err: Vec::new(alloc),
    })
}

/// What `vet` answers to a case, and what is owed by the listing that `code` writes.
pub(crate) fn vetted<R: Threads + Wait + Sync>(
    rt: &R,
    alloc: Global,
    case: &Case,
) -> Result<(Outcome, Outcome)> {
    let owed = owed_by(alloc, &outcome_by(rt, alloc, case, "code")?)?;
    Ok((outcome_by(rt, alloc, case, "vet")?, owed))
}
