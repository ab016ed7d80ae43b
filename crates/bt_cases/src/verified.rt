// Accounts that runs write: each has to be true.
use crate::case::Case;
use crate::outcome::{Outcome, outcome_of, outcome_over};
use bt_core::memory::Memory;
use std::alloc::Global;
use std::sync::Wait;
use std::thread::Threads;

/// The words that check the account of a case.
fn words_of(alloc: Global) -> Result<Vec<String>, Memory> {
    let mut words = Vec::new(alloc);
    for word in ["verify", "s.bt", "r.bin", "a.bin"] {
        words.push(String::from_str(alloc, word)?)?;
    }
    Ok(words)
}

/// Whether the check of an account says that it is true, and nothing else.
fn is_verified(outcome: &Outcome) -> bool {
    outcome.status == 0
        && outcome.err.is_empty()
        && outcome.out.as_slice().starts_with(b"verified: ")
}

/// Runs a case as often as its accounts are verified, and checks what each run writes. Gives the first outcome that is not as it has to be: of
/// a run that fails, or of a check whose account is refused.
pub(crate) fn unverified<R: Threads + Wait + Sync>(
    rt: &R,
    alloc: Global,
    case: &Case,
) -> Result<Option<Outcome>, Memory> {
    let words = words_of(alloc)?;
    for _ in 0..case.verifies {
        let run = outcome_of(rt, alloc, case, case.words.as_slice())?;
        if run.status != 0 {
            return Ok(Some(run));
        }
        let check = outcome_over(rt, alloc, case, run.out.as_slice(), words.as_slice())?;
        if !is_verified(&check) {
            return Ok(Some(check));
        }
    }
    Ok(None)
}
