// The runs of bodies, one after the other.
ghost use Rattle.std.specs.Prelude.{◌≡◌, ◌≤◌, ◌*◌, All, IfOk, length};
ghost use Rattle.bt_core.specs.declared.limits.TheConstants.{BODIES as MOST_BODIES};
ghost use Rattle.bt_core.specs.Interaction.{Performed};
ghost use Rattle.actor_plan.specs.Plans.{IsBodyFor, ServesPlan, TakesFew};
ghost use Rattle.actor_plan.specs.Programs.{in_turn};

use crate::bodies::Bodies;
use crate::limits::RUN_INSTRUCTIONS;
use bt_core::memory::Memory;
use bt_core::port::Port;
use event_record::contexts::ContextBytes;
use std::alloc::Global;

/// Runs bodies one after the other at one context and payload, and gives the sum of their instructions.
pub(crate) fn run_in_turn<B: Bodies, P: Port>(
    alloc: Global,
    bodies: &mut B,
    which: &[u32],
    context: &ContextBytes,
    payload: &[u8],
    port: &mut P,
) -> Result<u64, Memory>
    requires known { All (IsBodyFor (B.plan bodies.old) (length payload.now)) which.now }
    requires few_bodies { length which.now ≤ MOST_BODIES }
    requires counted { context.now.payload_len ≡ length payload.now }
    requires served { ServesPlan (B.plan bodies.old) (P.fixed port.old).setting }
    requires few { TakesFew (B.plan bodies.old) }
    ensures performed { Performed (in_turn (λ body. (B.plan bodies.old).run body context.now payload.now) which.now)
        (P.steps port.old) (P.steps port.new) result }
    ensures few { IfOk result (λ count. count ≤ MOST_BODIES * RUN_INSTRUCTIONS) }
    ensures port_kept { P.fixed port.new ≡ P.fixed port.old }
    ensures plan_kept { B.plan bodies.new ≡ B.plan bodies.old }
{
    let mut total = 0;
    for body in which {
        total += bodies.run(alloc, *body, context, payload, port)?;
    }
    Ok(total)
}
