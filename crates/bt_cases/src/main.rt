//! Runs worked cases through the top call over files and sinks in memory, and tells those that differ.
#![tactic(auto)]

mod case;
mod faults;
mod outcome;
mod tally;
mod verified;
mod vet;

use anyhow::{Context, Result};
use bt_core::memory::Memory;
use case::Case;
use outcome::{Outcome, differing};
use std::alloc::Global;
use std::fs;
use std::rt::Files;
use std::sync::Wait;
use std::thread::Threads;
use tally::{Tallies, Tally};
use verified::unverified;
use vet::{is_compiled, vetted};

/// Tells what came of a case that differs, and what may come.
fn tell<R: Print>(rt: &R, case: &Case, differs: &Option<Outcome>) -> Result<()> {
    if let Some(came) = differs {
        println!(rt; "came {came}")?;
    }
    for wanted in case.wanted.as_slice() {
        println!(rt; "wanted {wanted}")?;
    }
    Ok(())
}

/// Checks the code of a case's script, where it is compiled, and counts how that ends.
fn run_vet<R: Print + AllocGlobal + Threads + Wait + Sync>(
    rt: &R,
    case: &Case,
    tally: &mut Tally,
) -> Result<()> {
    if !is_compiled(case) {
        return Ok(());
    }
    let (came, owed) = vetted(rt, rt.alloc(), case)?;
    tally.count(came == owed);
    if came != owed {
        println!(rt; "came {came}")?;
        println!(rt; "owed {owed}")?;
    }
    Ok(())
}

/// The first outcome of a case that may not come.
fn fault_of<R: Threads + Wait + Sync>(
    rt: &R,
    alloc: Global,
    case: &Case,
) -> Result<Option<Outcome>, Memory> {
    if case.verifies > 0 {
        unverified(rt, alloc, case)
    } else {
        differing(rt, alloc, case)
    }
}

/// Runs a case, counts how it ends, and tells it where it differs.
fn run_case<R: Print + AllocGlobal + Threads + Wait + Sync>(
    rt: &R,
    name: &str,
    number: u64,
    case: &Case,
    tally: &mut Tally,
) -> Result<()> {
    let differs = fault_of(rt, rt.alloc(), case)?;
    tally.count(differs.is_none());
    if differs.is_some() {
        println!(rt; "case {number} of {name} differs")?;
        tell(rt, case, &differs)?;
    }
    Ok(())
}

/// Runs the case of a line, and counts how it ends, and how the check of its code does.
fn run_line<R: Files + Print + AllocGlobal + Threads + Wait + Sync>(
    rt: &R,
    name: &str,
    number: u64,
    line: &str,
    tallies: &mut Tallies,
) -> Result<()> {
    let case = Case::of(rt, line).context(format_args!("case {number} of {name}"))?;
    run_case(rt, name, number, &case, &mut tallies.cases)?;
    run_vet(rt, &case, &mut tallies.vets)
}

/// Runs the cases of a file, one a line, and counts how they end, and how the check of their code does.
fn run_file<R: Files + Print + AllocGlobal + Threads + Wait + Sync>(
    rt: &R,
    name: &str,
    tallies: &mut Tallies,
) -> Result<()> {
    let text = fs::read_to_string(rt, name).context(format_args!("reading {name}"))?;
    let mut number = 0u64;
    for line in text.as_str().lines() {
        number = number.saturating_add(1);
        run_line(rt, name, number, line, tallies)?;
    }
    Ok(())
}

/// The files of the cases. Those of the last two run on threads, many of them many times.
const FILES: [&str; 10] = [
    "cases.jsonl",
    "refused.jsonl",
    "rows.jsonl",
    "printed.jsonl",
    "recorded.jsonl",
    "faults.jsonl",
    "examples.jsonl",
    "accounts.jsonl",
    "schedules.jsonl",
    "verified.jsonl",
];

/// Runs the cases of all files.
fn main(rt: HostRuntime) -> Result<()> {
    let mut tallies = Tallies::default();
    for name in FILES {
        run_file(&rt, name, &mut tallies)?;
    }
    println!(rt; "{}", tallies.cases)?;
    println!(rt; "vet: {}", tallies.vets)?;
    Ok(())
}
