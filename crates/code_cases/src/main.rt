//! Tells what worked codes of instructions are decoded to, how they run, and which steps helpers make. What is wanted is in
//! `stdout`: published examples, the results of the Linux kernel, and steps that were worked out by hand.
#![tactic(auto)]

mod codes;
mod helpers;
mod runs;
mod steps;

use anyhow::Result;
use codes::{tell_code, tell_forms};
use event_record::contexts::{ContextBytes, ContextParts};
use helpers::tell_helper;
use runs::tell_run;
use std::fs;

/// Tells the bytes of a context.
fn tell_context<R: Print + AllocGlobal>(rt: &R) -> Result<()> {
    let context = ContextBytes::of(&ContextParts {
        time: 0x0102_0304_0506_0708,
        start: 0x0102_0304_0506_0709,
        pid: 1,
        tid: 2,
        uid: 3,
        gid: 4,
        cpu: 5,
        comm: b"bash",
        payload_len: 6,
    });
    let digits = hex::encode(rt.alloc(), *context.bytes())?;
    println!(rt; "{digits}")?;
    Ok(())
}

/// Tells what comes of the lines of each file.
fn main(rt: HostRuntime) -> Result<()> {
    tell_context(&rt)?;
    tell_forms(&rt)?;
    let codes = fs::read_to_string(&rt, "codes.txt")?;
    for line in codes.as_str().lines() {
        tell_code(&rt, line)?;
    }
    let runs = fs::read_to_string(&rt, "runs.txt")?;
    for line in runs.as_str().lines() {
        tell_run(&rt, line)?;
    }
    let helpers = fs::read_to_string(&rt, "helpers.txt")?;
    for line in helpers.as_str().lines() {
        tell_helper(&rt, line)?;
    }
    Ok(())
}
