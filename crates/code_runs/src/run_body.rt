// The run of a body's code.
ghost use Rattle.std.specs.Prelude.{◌≡◌, ◌<◌, ◌^◌, Some, length};
ghost use Rattle.bt_core.specs.Interaction.{Performed};
ghost use Rattle.actor_plan.specs.Plans.{AreServed};
ghost use Rattle.bpf_interp.specs.Running.{RunPerformed};
ghost use Rattle.helper_abi.specs.Running.{script_run};
ghost use Rattle.helper_abi.specs.Served.{desk_of};
ghost use Rattle.code_runs.specs.Coding.{CanRunCode, coded};
ghost use Rattle.code_runs.specs.Serving.{told};

use crate::script_port::ScriptPort;
use bpf_insn::address::CONTEXT_BYTES;
use bpf_insn::trap::Trap;
use bpf_interp::code::Code;
use bpf_interp::machine::Ended;
use bt_core::limits::FUEL_OF_A_SLOT;
use bt_core::memory::Memory;
use bt_core::port::Port;
use event_record::contexts::ContextBytes;
use helper_abi::running::run_code;
use std::alloc::Global;
use typed_tree::script::Typed;

/// Runs code through a port that serves the script's maps under their numbers.
fn run_through<P: Port>(
    alloc: Global,
    script: &Typed,
    code: &Code,
    context: &[u8; CONTEXT_BYTES],
    payload: &[u8],
    actor: u32,
    actors: u32,
    port: &mut P,
    fuel: u64,
) -> Result<Ended, Trap>
    requires can { CanRunCode code.now }
    requires short { length payload.now < 2 ^ 32 }
    requires served { AreServed script.now.maps (P.fixed port.old).setting.maps }
    requires actor { (P.fixed port.old).setting.actor ≡ actor }
    requires actors { (P.fixed port.old).setting.actors ≡ actors }
    requires below { actor < actors }
    ensures performed { let run = script_run (desk_of script.now actor actors) code.now context.now payload.now fuel in
        RunPerformed run (P.steps port.old) (P.steps port.new) result }
    ensures kept { P.fixed port.new ≡ P.fixed port.old }
{
    let mut own = ScriptPort::new(port, script);
    run_code(
        alloc, code, context, payload, script, actor, actors, &mut own, fuel,
    )
}

/// How many instructions a run took. Code that keeps its body does not trap.
fn count_in(run: Result<Ended, Trap>) -> Result<u64, Memory>
    ensures { result ≡ told run }
{
    match run {
        Ok(ended) => Ok(ended.instructions),
        Err(Trap::Memory(want)) => Err(want),
        Err(_) => Ok(0),
    }
}

/// Runs the code of a body at a context and a payload, and gives the number of its instructions.
#[tactic(auto, using(crate::proofs::Counting::counted))]
pub(crate) fn run_body<P: Port>(
    alloc: Global,
    script: &Typed,
    code: &Code,
    context: &ContextBytes,
    payload: &[u8],
    actor: u32,
    actors: u32,
    port: &mut P,
) -> Result<u64, Memory>
    requires can { CanRunCode code.now }
    requires short { length payload.now < 2 ^ 32 }
    requires served { AreServed script.now.maps (P.fixed port.old).setting.maps }
    requires actor { (P.fixed port.old).setting.actor ≡ actor }
    requires actors { (P.fixed port.old).setting.actors ≡ actors }
    requires below { actor < actors }
    ensures performed { Performed (coded script.now actor actors (Some code.now) context.now payload.now) (P.steps port.old) (P.steps port.new) result }
    ensures kept { P.fixed port.new ≡ P.fixed port.old }
{
    let bytes = context.bytes();
    let fuel = FUEL_OF_A_SLOT * code.len() as u64;
    let run = run_through(
        alloc, script, code, bytes, payload, actor, actors, port, fuel,
    );
    count_in(run)
}
