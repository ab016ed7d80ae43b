// Runs of code whose helpers work on a typed script.
ghost use Rattle.std.specs.Prelude.{◌≡◌, ◌≢◌, ◌<◌, ◌≤◌, ◌^◌, [], length, IfOk};
ghost use Rattle.bpf_insn.specs.Code.{IsWellFormed};
ghost use Rattle.bpf_interp.specs.Running.{RunPerformed};
ghost use Rattle.helper_abi.specs.Served.{IsFor, desk_of};
ghost use Rattle.helper_abi.specs.Running.{script_run};

use crate::helper_port::HelperPort;
use bpf_insn::address::CONTEXT_BYTES;
use bpf_interp::Trap;
use bpf_interp::code::Code;
use bpf_interp::machine::{Ended, Machine};
use bt_core::port::Port;
use std::alloc::Global;
use typed_tree::script::Typed;

/// Runs code from its first instruction, whose helpers make their steps through a port. The port serves
/// the maps of a typed script for an actor, which is below the number of actors; for the code, the
/// payload and the fuel [`Machine::run`] says what they are.
///
/// Answers how many instructions were taken, or the trap that stopped the run. The steps that were made
/// before a trap stand.
pub fn run_code<P: Port>(
    alloc: Global,
    code: &Code,
    context: &[u8; CONTEXT_BYTES],
    payload: &[u8],
    typed: &Typed,
    actor: u32,
    actors: u32,
    port: &mut P,
    fuel: u64,
) -> Result<Ended, Trap>
    requires well_formed { IsWellFormed code.now }
    requires begins { code.now ≢ [] }
    requires short { length code.now < 2 ^ 32 }
    requires payload { length payload.now < 2 ^ 32 }
    requires served { IsFor typed.now.maps actor actors (P.fixed port.old).setting }
    ensures performed { let run = script_run (desk_of typed.now actor actors) code.now context.now payload.now fuel in
        RunPerformed run (P.steps port.old) (P.steps port.new) result }
    ensures within { IfOk result (λ ended. (1 ≤ ended.instructions) × (ended.instructions ≤ fuel)) }
    ensures kept { P.fixed port.new ≡ P.fixed port.old }
{
    let mut ports = HelperPort::new(port, typed, actor, actors);
    Machine::run(alloc, code, context, payload, &mut ports, fuel)
}
