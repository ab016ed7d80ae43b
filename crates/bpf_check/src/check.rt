// The check of the bytes of code.
ghost use Rattle.std.specs.Prelude.{◌≡◌, ◌≢◌, ◌⊎◌, ◌≤◌, ◌*◌, ℕ, Result, Err, length};
ghost use Rattle.bt_core.specs.declared.limits.TheConstants.{CODE_SLOTS};
ghost use Rattle.bt_core.specs.Want.{out_of_memory};
ghost use Rattle.bpf_check.specs.declared.check.CodeFault.{CodeFault as FaultValue};
ghost use Rattle.bpf_check.specs.Sheet.{sheet_of};
ghost use Rattle.bpf_check.specs.Answers.{IsAnswer, Judges, refused};

use crate::settle::{entry_table, is_closed};
use bpf_encode::decode::{DecodeError, decode};
use bpf_insn::insn::Insn;
use bt_core::memory::Memory as NoMemory;
use std::alloc::Global;
use thiserror::Error;
use typed_tree::script::Typed;

/// Why code is refused.
#[derive(Clone, Copy, PartialEq, Eq, Debug, Error)]
pub enum CodeFault {
    /// The bytes are no code; their first fault.
    #[error("S1: {0}")]
    S1(DecodeError),
    /// The code is not closed: nothing shows that it neither traps nor runs on.
    #[error("S2: code that is not closed")]
    S2,
    /// Memory ran out.
    #[error("out of memory")]
    Memory(NoMemory),
}

// What a fault of decoding is for the check.
fn refused(fault: DecodeError) -> CodeFault
    ensures { result ≡ refused fault }
{
    match fault {
        DecodeError::Memory(want) => CodeFault::Memory(want),
        _ => CodeFault::S1(fault),
    }
}

// The judgement of code.
fn judge(alloc: Global, typed: &Typed, payload: u32, code: &[Insn]) -> Result<u64, CodeFault>
    requires { length code.now ≤ CODE_SLOTS }
    ensures { Judges (sheet_of typed.now payload) code.now result }
{
    if code.is_empty() {
        return Err(CodeFault::S2);
    }
    let mut table = match entry_table(alloc, code.len()) {
        Ok(table) => table,
        Err(want) => return Err(CodeFault::Memory(want)),
    };
    if is_closed(typed, payload, code, table.as_mut_slice()) {
        Ok(4097 * code.len() as u64)
    } else {
        Err(CodeFault::S2)
    }
}

/// Whether the bytes are those of closed code: an assignment of what is known at its slots shows that it
/// neither traps nor goes on, over a typed script's maps and formats, and over each payload of at least
/// so many bytes. The bytes are at most 8 times [`bt_core::limits::CODE_SLOTS`].
///
/// Answers 4,097 times the number of slots, which no run of the code exceeds.
///
/// # Errors
///
/// [`CodeFault::S1`] with the first fault of bytes that are no code, [`CodeFault::S2`] where they are
/// code that is not closed, and [`CodeFault::Memory`] where memory runs out.
#[tactic(auto, using(crate::proofs::Counting::slots_few))]
pub fn check_code(alloc: Global, code: &[u8], typed: &Typed, payload: u32) -> Result<u64, CodeFault>
    requires { length code.now ≤ 8 * CODE_SLOTS }
    // What is answered holds of the bytes.
    ensures answer { result ≢ Err (CodeFault.Memory out_of_memory) → IsAnswer (sheet_of typed.now payload) code.now result }
    // The answer that holds of the bytes is given, unless memory runs out.
    ensures only { (answer : Result ℕ FaultValue) → IsAnswer (sheet_of typed.now payload) code.now answer →
        (result ≡ answer) ⊎ (result ≡ Err (CodeFault.Memory out_of_memory)) }
{
    match decode(alloc, code) {
        Ok(insns) => judge(alloc, typed, payload, insns.as_slice()),
        Err(fault) => Err(refused(fault)),
    }
}
