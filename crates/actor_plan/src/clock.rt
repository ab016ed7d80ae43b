// What is asked of the clock.
ghost use Rattle.std.specs.Prelude.{◌≡◌, ◌<◌};
ghost use Rattle.bt_core.specs.Interaction.{Performed};
ghost use Rattle.actor_plan.specs.Programs.{goes_on as going_on, crosses_last as crossing_last, tells_stop, tells_last};

use bt_core::memory::Memory;
use bt_core::port::Port;
use bt_core::step::{ObjectId, Op, Reply};
use std::alloc::Global;

fn is_stop(reply: &Reply) -> bool
    ensures { result ≡ tells_stop reply.now }
{
    matches!(reply, Reply::Stopped(true))
}

fn is_last(reply: &Reply) -> bool
    ensures { result ≡ tells_last reply.now }
{
    matches!(reply, Reply::Last(true))
}

/// Whether to go on: always where nothing is checked, and else not after a stop.
pub(crate) fn goes_on<P: Port>(alloc: Global, checks: bool, port: &mut P) -> Result<bool, Memory>
    ensures performed { Performed (going_on checks) (P.steps port.old) (P.steps port.new) result }
    ensures port_kept { P.fixed port.new ≡ P.fixed port.old }
{
    if !checks {
        return Ok(true);
    }
    let mut op = Op::Check;
    port.step(alloc, ObjectId::Clock, &mut op)?;
    Ok(!is_stop(port.last()))
}

/// Crosses a tick, and tells whether this actor is the last to cross it.
pub(crate) fn crosses_last<P: Port>(alloc: Global, tick: u32, port: &mut P) -> Result<bool, Memory>
    requires { tick < (P.fixed port.old).setting.ticks }
    ensures performed { Performed (crossing_last tick) (P.steps port.old) (P.steps port.new) result }
    ensures port_kept { P.fixed port.new ≡ P.fixed port.old }
{
    let mut op = Op::Cross(tick);
    port.step(alloc, ObjectId::Clock, &mut op)?;
    Ok(is_last(port.last()))
}
