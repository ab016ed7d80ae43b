// Whether an assignment of states is closed: the least one is sought.
ghost use Rattle.std.specs.Prelude.{◌≡◌, ◌≤◌, ◌<◌, length, true, false, slice_set, replicate, None, Some, IfOk};
ghost use Rattle.bt_core.specs.declared.limits.TheConstants.{CODE_SLOTS};
ghost use Rattle.bpf_check.specs.States.{entry_seen};
ghost use Rattle.bpf_check.specs.Sheet.{sheet_of};
ghost use Rattle.bpf_check.specs.Closed.{IsClosedCode};
ghost use Rattle.bpf_check.specs.Tables.{IsSettled, work};
ghost use Rattle.bpf_check.specs.Settling.{Settles};

use crate::known::{Known, Seen};
use crate::table::advance;
use crate::ways::leads;
use bpf_insn::address::{CONTEXT, PAYLOAD};
use bpf_insn::insn::Insn;
use bt_core::memory::Memory;
use std::alloc::Global;
use typed_tree::script::Typed;

// At entry R1 holds the address of the context and R2 that of the payload.
fn entry_seen() -> Seen
    ensures { result ≡ entry_seen }
{
    let mut regs = [Known::Unset; 10];
    regs[1] = Known::Const(CONTEXT);
    regs[2] = Known::Const(PAYLOAD);
    Seen { regs, credit: 0 }
}

/// The table in which the entry alone is reached.
///
/// # Errors
///
/// [`Memory`] where there is no room for it.
pub fn entry_table(alloc: Global, slots: usize) -> Result<Vec<Option<Seen>>, Memory>
    requires { 0 < slots }
    ensures { IfOk result (λ table. table.items ≡ slice_set (replicate slots None) 0 (Some entry_seen)) }
{
    let mut table = vec![in alloc; None; slots]?;
    table[0] = Some(entry_seen());
    Ok(table)
}

// Adds what comes of the state of a place, and answers where to go on; `None` where the state misses
// its condition, so that no assignment is closed.
fn step_at(
    typed: &Typed,
    payload: u32,
    code: &[Insn],
    table: &mut [Option<Seen>],
    at: usize,
) -> Option<usize>
    requires few { length code.now ≤ CODE_SLOTS }
    requires settled { IsSettled (sheet_of typed.now payload) code.now table.old at }
    requires inside { at < length code.now }
    ensures { Settles (sheet_of typed.now payload) code.now (work table.old at) table.new result }
{
    match table[at] {
        None => Some(at + 1),
        Some(seen) => match leads(typed, payload, code, at, seen) {
            None => None,
            Some(ways) => Some(advance(table, at + 1, ways)),
        },
    }
}

/// Whether code of at most 4,096 slots is closed, by a table in which the entry alone is reached. The
/// cursor goes back to what has changed, and what lies before it is settled.
pub fn is_closed(typed: &Typed, payload: u32, code: &[Insn], table: &mut [Option<Seen>]) -> bool
    requires few { length code.now ≤ CODE_SLOTS }
    requires start { IsSettled (sheet_of typed.now payload) code.now table.old 0 }
    ensures closed { result ≡ true → IsClosedCode (sheet_of typed.now payload) code.now }
    ensures open { result ≡ false → IsClosedCode (sheet_of typed.now payload) code.now → ⊥ }
{
    let mut at = 0;
    while at < code.len() {
        match step_at(typed, payload, code, table, at) {
            None => return false,
            Some(next) => at = next,
        }
    }
    true
}
