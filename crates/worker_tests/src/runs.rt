// Runs of a script by the workers of two CPUs.
ghost use Rattle.std.specs.Prelude.{◌≡◌, ◌<◌, IfOk};
ghost use Rattle.bt_meaning.specs.Jobs.{IsJob};
ghost use Rattle.cpu_worker.specs.Worlds.{sets_in, world_cpus, AreTurnsOf, IsPlanIn};
ghost use Rattle.account_check.specs.Plans.{plan_of};

use crate::failing::Failing;
use crate::locks::{AllTurns, close, new_locks};
use crate::script::Scripted;
use crate::workers::{Order, Task, new_task, run_both};
use account_check::walks::{Walks, walks_take_few};
use actor_plan::outcome::Outcome;
use bt_core::memory::Memory;
use bt_core::step::Step;
use cpu_worker::world::{SharedWorld, WorkerTurns};
use std::alloc::Global;
use std::sync::Wait;
use std::test::Fail;
use std::thread::Threads;
use turn_lock::gate::{Gate, Open};

/// The bodies of one of two CPUs, of which this run runs out of memory.
fn failing_at<'w>(world: &SharedWorld<'w>, cpu: u32, fails_at: u32) -> Failing<Walks<'w>>
    requires job { IsJob world.now.typed.now world.now.attached.now world.now.recording.now }
    requires two { world_cpus world.now ≡ 2 }
    requires known { cpu < 2 }
    ensures { IsPlanIn world.now cpu (plan_of result.bodies) }
{
    walks_take_few();
    Failing {
        bodies: Walks::new(world.typed, cpu, 3),
        fails_at,
        runs: 0,
    }
}

/// What a worker did: how its run ended, and the list of its steps.
pub struct Did {
    pub ended: Option<Result<Outcome, Memory>>,
    pub steps: Vec<Step>,
}

// Written out, so that it is one call wherever such a value is let go.
impl Drop for Did {
    fn drop(self) {
        let Self { ended: _, steps: _ } = self;
    }
}

/// The turns that a worker leaves, and what it did.
fn finished<B: Drop, G: Gate>(alloc: Global, task: Task<B, G>) -> Result<(WorkerTurns, Did), Memory>
    ensures { IfOk result (λ r. r.0 ≡ task.entry.worker.turns) }
{
    let Task { worker, ended } = task;
    let (turns, trace) = worker.finish();
    let mut steps = Vec::new(alloc);
    trace.into_steps().copy_to(alloc, &mut steps)?;
    Ok((turns, Did { ended, steps }))
}

/// At which run the bodies of each of two CPUs run out of memory, 0 for never, and in which order the workers run.
#[derive(Clone, Copy, Debug)]
pub struct Trial {
    pub fails_at: (u32, u32),
    pub order: Order,
}

/// The turns that both workers leave, and what each did.
type Left = ((WorkerTurns, Did), (WorkerTurns, Did));

/// Runs the workers of both CPUs of a script, with these turns.
fn run_two<R: Threads + Wait + Sync>(
    rt: &R,
    alloc: Global,
    world: &SharedWorld,
    trial: Trial,
    first: WorkerTurns,
    second: WorkerTurns,
) -> Result<Left, Memory>
    requires job { IsJob world.now.typed.now world.now.attached.now world.now.recording.now }
    requires two { world_cpus world.now ≡ 2 }
    requires first { AreTurnsOf (sets_in world.now) 0 first }
    requires second { AreTurnsOf (sets_in world.now) 1 second }
    ensures first { IfOk result (λ r. AreTurnsOf (sets_in world.now) 0 r.0.0) }
    ensures second { IfOk result (λ r. AreTurnsOf (sets_in world.now) 1 r.1.0) }
{
    let gate = Open;
    let (first_fails, second_fails) = trial.fails_at;
    let bodies = failing_at(world, 0, first_fails);
    let first = new_task(alloc, world, 0, bodies, &gate, first);
    let bodies = failing_at(world, 1, second_fails);
    let second = new_task(alloc, world, 1, bodies, &gate, second);
    let (first, second) = run_both(rt, alloc, world, trial.order, first, second)?;
    let first = finished(alloc, first)?;
    let second = finished(alloc, second)?;
    Ok((first, second))
}

/// What both workers did, and how many parts of shared maps and tables were given back when all locks were closed.
pub struct Made {
    pub first: Did,
    pub second: Did,
    pub closed: (usize, usize),
}

// Written out, so that it is one call wherever such a value is let go.
impl Drop for Made {
    fn drop(self) {
        let Self {
            first: _,
            second: _,
            closed: _,
        } = self;
    }
}

/// Runs the workers of both CPUs of a script, and then closes all locks with all turns.
pub fn make<R: Threads + Wait + Sync>(
    rt: &R,
    alloc: Global,
    scripted: &Scripted,
    trial: Trial,
) -> Result<Made, Fail>
    requires { IsJob scripted.now.typed scripted.now.attached scripted.now.recording }
{
    if scripted.recording.cpus.len() != 2 {
        return Err(Fail::new("there are not two CPUs"));
    }
    let (locks, turns) = new_locks(alloc, scripted)?;
    let AllTurns {
        first,
        second,
        main,
    } = turns;
    let world = SharedWorld {
        recording: &scripted.recording,
        attached: &scripted.attached,
        typed: &scripted.typed,
        maps: &locks.maps,
        tables: &locks.tables,
        sides: &locks.sides,
    };
    let ((first, first_did), (second, second_did)) = run_two(
        rt, alloc, &world, trial, first, second,
    )?;
    let turns = AllTurns {
        first,
        second,
        main,
    };
    Ok(Made {
        first: first_did,
        second: second_did,
        closed: close(alloc, locks, turns)?,
    })
}
