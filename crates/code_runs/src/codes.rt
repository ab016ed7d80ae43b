// The code that programs are.
ghost use Rattle.std.specs.Prelude.{◌≡◌, ◌<◌, ◌^◌, List, length, IfOk};
ghost use Rattle.std.specs.List.{AllByRecursion};
ghost use Rattle.bpf_encode.specs.Decoding.{IsCodeOf};
ghost use Rattle.bpf_insn.specs.declared.insn.Insn.{Insn as InsnValue};
ghost use Rattle.code_runs.specs.Coding.{CanRunCode};
ghost use Rattle.code_runs.specs.Kept.{KeepBodies};
ghost use Rattle.typed_tree.specs.declared.script.Typed.{Typed};
ghost use Rattle.code_runs.specs.Programs.{AreCodesOf, KeepScript};

use bpf_encode::decode::{DecodeError, decode};
use bpf_encode::program::Program;
use bpf_interp::code::Code;
use bt_core::items::Items;
use bt_core::memory::Memory;
use std::alloc::Global;

/// The code that a program is.
///
/// # Errors
///
/// [`Memory`] where there is no room for it.
fn code_of(alloc: Global, program: &Program) -> Result<Code, Memory>
    requires short { length program.now.bytes < 2 ^ 35 }
    requires spelt { (code : List InsnValue) × IsCodeOf code program.now.bytes }
    ensures { IfOk result (λ got. (code : List InsnValue) → IsCodeOf code program.now.bytes → got ≡ code) }
{
    match decode(alloc, program.bytes.as_slice()) {
        Ok(code) => Code::of(alloc, Items::of(code)),
        Err(DecodeError::Memory(want)) => Err(want),
        Err(_) => unreachable!(),
    }
}

/// The codes of the programs of a script, in the order of the programs (`codes`). There are no other codes of these programs (`only`),
/// each keeps the body that its program keeps (`keep`), and each can be run (`can_run`).
///
/// # Errors
///
/// [`Memory`] is the one error.
pub fn codes_of(alloc: Global, programs: &[Program]) -> Result<Items<Code>, Memory>
    requires { (script : Typed) × KeepScript script programs.now }
    ensures codes { IfOk result (AreCodesOf programs.now) }
    ensures only { IfOk result (λ codes. (others : List (List InsnValue)) → AreCodesOf programs.now others → codes ≡ others) }
    ensures keep { IfOk result (λ codes. (script : Typed) → KeepScript script programs.now → KeepBodies script codes) }
    ensures can_run { IfOk result (AllByRecursion CanRunCode) }
{
    let mut codes = Items::new(alloc);
    for program in programs {
        let code = code_of(alloc, program)?;
        codes.push(code)?;
    }
    Ok(codes)
}
