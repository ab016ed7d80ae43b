// Scripts of which a body is too large.
ghost use Rattle.std.specs.Prelude.{◌≡◌, ℕ, ◌<◌, length, IfOk, IfErr};
ghost use Rattle.top_jobs.specs.Doing.{ArePrograms, HasProbe, IsSizeAnswer, TellsSize};
ghost use Rattle.top_jobs.specs.Sizes.{IsProbePlace, size_wrong};

use bpf_encode::program::Program;
use bt_ast::attached::Attached;
use bt_ast::probe::Script;
use bt_core::items::Items;
use bt_core::place::Place;
use script_programs::error::{ProgramsError, SizeFault};
use script_programs::programs::programs_of;
use std::alloc::Global;
use top_refusals::refusal::{Refusal, ScriptFault, ScriptRefusal};
use typed_tree::script::Typed;

/// The place of the first token of the probe of a body.
fn probe_place(script: &Script, attached: &Attached, body: u32) -> Place
    requires { HasProbe script.now attached.now body }
    ensures { IsProbePlace script.now attached.now body result }
{
    let id = attached.bodies.as_slice()[body as usize];
    script.probes.as_slice()[id.probe as usize].place
}

/// What is too large of a body, as a fault of its script.
fn size_wrong(fault: SizeFault) -> ScriptFault
    ensures { result ≡ size_wrong fault }
{
    match fault {
        SizeFault::FrameTooLarge(bytes) => ScriptFault::FrameTooLarge(bytes),
        SizeFault::CodeTooLarge(slots) => ScriptFault::CodeTooLarge(slots),
    }
}

/// Why a script is refused of which a body is too large.
fn size_refusal(script: &Script, attached: &Attached, body: u32, fault: SizeFault) -> Refusal
    requires { HasProbe script.now attached.now body }
    ensures { TellsSize script.now attached.now body fault result }
{
    let place = probe_place(script, attached, body);
    Refusal::Script(ScriptRefusal::Fault(size_wrong(fault), place))
}

/// A program for each body of a script with its types, where none is too large.
pub(crate) fn programs_for(
    alloc: Global,
    script: &Script,
    attached: &Attached,
    typed: &Typed,
) -> Result<Items<Program>, Refusal>
    requires probes { (body : ℕ) → body < length typed.now.bodies → HasProbe script.now attached.now body }
    ensures programs { IfOk result (ArePrograms typed.now) }
    ensures refused { IfErr result (IsSizeAnswer script.now attached.now typed.now) }
{
    match programs_of(alloc, typed) {
        Ok(programs) => Ok(programs),
        Err(ProgramsError::TooLarge { body, fault }) => {
            Err(size_refusal(script, attached, body, fault))
        }
        Err(ProgramsError::Memory) => Err(Refusal::Memory),
    }
}
