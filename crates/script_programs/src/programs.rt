// Programs of whole scripts.
ghost use Rattle.std.specs.Prelude.{◌≡◌, None, Some, Err, ℕ, IfOk};
ghost use Rattle.script_programs.specs.Making.{IsMade};
ghost use Rattle.code_runs.specs.Programs.{KeepScript};
ghost use Rattle.script_programs.specs.Sizes.{first_size_fault, too_large, IsUntold};
ghost use Rattle.script_programs.specs.declared.error.SizeFault.{SizeFault as Fault};

use crate::error::ProgramsError;
use crate::folding::fold_all;
use crate::laws::lowered_code_keeps_bodies;
use crate::sizes::check_sizes;
use bpf_codegen::generate::generate_program;
use bpf_encode::program::Program;
use bpf_frame::error::CodeError;
use bt_core::items::Items;
use bt_core::memory::Memory;
use bt_lower::lower::lower;
use ir_code::probe::IrProbe;
use std::alloc::Global;
use typed_tree::script::Typed;

/// The program of a body that is not too large.
///
/// # Errors
///
/// [`Memory`] where there is no room for it.
#[tactic(auto, using(crate::proofs::Sizing::frame_fits, crate::proofs::Sizing::code_fits))]
fn program_of(alloc: Global, probe: &IrProbe) -> Result<Program, Memory>
    requires fits { too_large probe.now.frame_need probe.now.code_need ≡ None }
    ensures made { IfOk result (IsMade probe.now) }
{
    match generate_program(alloc, probe) {
        Ok(program) => Ok(program),
        Err(CodeError::Memory(want)) => Err(want),
        Err(_) => unreachable!(),
    }
}

/// The programs of a script, one for each body, in their order. Each keeps its body.
///
/// # Errors
///
/// [`ProgramsError::TooLarge`] comes exactly where a body needs more than 512 bytes of frame or more than 4,096 slots of code, with the
/// first such body, whatever memory there is; and [`ProgramsError::Memory`] where memory ran out, or the numbers of that fault do not
/// fit their types.
pub fn programs_of(alloc: Global, script: &Typed) -> Result<Items<Program>, ProgramsError>
    ensures keep { IfOk result (KeepScript script.now) }
    ensures fit { IfOk result (λ programs. first_size_fault 0 script.now.bodies ≡ None) }
    ensures refused { (place : ℕ) (fault : Fault) → result ≡ Err (ProgramsError.TooLarge place fault) →
        first_size_fault 0 script.now.bodies ≡ Some (place, fault) }
    // So where a body is too large, want of memory is no answer unless the fault cannot be told.
    ensures untold { (place : ℕ) (fault : Fault) → result ≡ Err ProgramsError.Memory → first_size_fault 0 script.now.bodies ≡ Some (place, fault) →
        IsUntold script.now.bodies place }
{
    lowered_code_keeps_bodies();
    check_sizes(script.bodies.as_slice())?;
    let lowered = lower(alloc, script)?;
    let probes = fold_all(alloc, lowered)?;
    let mut programs = Items::new(alloc);
    for probe in probes.as_slice() {
        let program = program_of(alloc, probe)?;
        programs.push(program)?;
    }
    Ok(programs)
}
