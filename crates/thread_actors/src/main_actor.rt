// The main actor, which runs BEGIN before all CPUs and END after them.
ghost use Rattle.std.specs.Prelude.{◌≡◌, IfOk};
ghost use Rattle.actor_plan.specs.Programs.{begin_program, end_program};
ghost use Rattle.cpu_worker.specs.Worlds.{sets_in, IsReplayable, AreTurnsOf, IsPlanIn};
ghost use Rattle.stamped.specs.Traces.{actor_of};
ghost use Rattle.thread_actors.specs.Acts.{HasDone};

use actor_plan::bodies::Bodies;
use actor_plan::program::{run_begin, run_end};
use bt_core::beside::beside;
use bt_core::memory::Memory;
use cpu_worker::world::{SharedWorld, WorkerTurns};
use cpu_worker::world_port::WorldPort;
use stamped::trace::Trace;
use std::alloc::Global;
use std::sync::Wait;
use turn_lock::gate::Gate;

/// The main actor, with its bodies, its turns and its trace.
pub(crate) struct MainActor<B> {
    pub(crate) bodies: B,
    pub(crate) turns: WorkerTurns,
    pub(crate) trace: Trace,
}

// Written out, so that it is one call wherever such a value is let go.
impl<B: Drop> Drop for MainActor<B> {
    fn drop(self) {
        let Self {
            bodies: _,
            turns: _,
            trace: _,
        } = self;
    }
}

impl<B: Drop> MainActor<B> {
    /// Its bodies, its turns and its trace.
    pub(crate) fn into_parts(self) -> (B, WorkerTurns, Trace)
        ensures bodies { result.0 ≡ self.bodies }
        ensures turns { result.1 ≡ self.turns }
        ensures trace { result.2 ≡ self.trace }
    {
        let MainActor {
            bodies,
            turns,
            trace,
        } = self;
        (bodies, turns, trace)
    }
}

/// Runs the bodies of `BEGIN`. Gives the main actor as it is then, and how many instructions they took.
pub(crate) fn begin<B: Bodies + Drop, G: Gate, R: Wait>(
    rt: &R,
    alloc: Global,
    world: &SharedWorld,
    gate: &G,
    main: MainActor<B>,
) -> Result<(MainActor<B>, u64), Memory>
    requires replay { IsReplayable world.now }
    requires turns { AreTurnsOf (sets_in world.now) (actor_of main.trace) main.turns }
    requires plan { IsPlanIn world.now (actor_of main.trace) (B.plan main.bodies) }
    ensures { IfOk result (λ r. HasDone B.plan world.now
        (begin_program (B.plan main.bodies) world.now.recording.now world.now.attached.now) main r.0 r.1) }
{
    let (mut bodies, turns, trace) = main.into_parts();
    let mut port = WorldPort::new(rt, world, turns, trace, gate);
    let count = run_begin(
        alloc,
        &mut bodies,
        world.recording,
        world.attached,
        &mut port,
    );
    let (turns, trace) = port.into_parts();
    let main = MainActor {
        bodies,
        turns,
        trace,
    };
    beside(main, count)
}

/// Runs the bodies of `END`. Gives the main actor as it is then, and how many instructions they took.
pub(crate) fn end<B: Bodies + Drop, G: Gate, R: Wait>(
    rt: &R,
    alloc: Global,
    world: &SharedWorld,
    gate: &G,
    main: MainActor<B>,
) -> Result<(MainActor<B>, u64), Memory>
    requires replay { IsReplayable world.now }
    requires turns { AreTurnsOf (sets_in world.now) (actor_of main.trace) main.turns }
    requires plan { IsPlanIn world.now (actor_of main.trace) (B.plan main.bodies) }
    ensures { IfOk result (λ r. HasDone B.plan world.now
        (end_program (B.plan main.bodies) world.now.recording.now world.now.attached.now) main r.0 r.1) }
{
    let (mut bodies, turns, trace) = main.into_parts();
    let mut port = WorldPort::new(rt, world, turns, trace, gate);
    let count = run_end(
        alloc,
        &mut bodies,
        world.recording,
        world.attached,
        &mut port,
    );
    let (turns, trace) = port.into_parts();
    let main = MainActor {
        bodies,
        turns,
        trace,
    };
    beside(main, count)
}
