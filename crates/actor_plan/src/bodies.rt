// What runs the bodies of a script.
ghost use Rattle.std.specs.Prelude.{◌≡◌};
ghost use Rattle.bt_core.specs.Interaction.{Performed};
ghost use Rattle.actor_plan.specs.Plans.{Plan, ServesPlan, CanRun};

use bt_core::memory::Memory;
use bt_core::port::Port;
use event_record::contexts::ContextBytes;
use std::alloc::Global;

/// Runs the bodies of a script for one actor.
///
/// What it tells is its `plan`: its actor, the number of actors, the script's maps, the number of its bodies with the layout
/// size of each, and for each body, context and payload what the body asks under replies and how many instructions it takes.
pub trait Bodies {
    /// What is told of the bodies.
    ghost plan: { Self → Plan };

    /// Runs a body at a context and a payload through a port, and gives the number of its instructions.
    ///
    /// The plan is kept, also after [`Memory`]; the steps that were then made are the first of the body's.
    fn run<P: Port>(
        &mut self,
        alloc: Global,
        body: u32,
        context: &ContextBytes,
        payload: &[u8],
        port: &mut P,
    ) -> Result<u64, Memory>
        requires can_run { CanRun (plan self.old) body context.now payload.now }
        requires served { ServesPlan (plan self.old) (P.fixed port.old).setting }
        ensures performed { Performed ((plan self.old).run body context.now payload.now) (P.steps port.old) (P.steps port.new) result }
        ensures port_kept { P.fixed port.new ≡ P.fixed port.old }
        ensures plan_kept { plan self.new ≡ plan self.old };
}
