// All actors: the main actor before, the CPUs side by side, and the main actor after.
ghost use Rattle.std.specs.Prelude.{◌≡◌, ℕ, ◌+◌, ◌<◌, length, slice_index_or, IfOk, OnOk};
ghost use Rattle.std.specs.List.{remove};
ghost use Rattle.turn_lock.specs.History.{Each};
ghost use Rattle.actor_plan.specs.Plans.{Plan};
ghost use Rattle.thread_actors.specs.Plans.{HavePlans};
ghost use Rattle.stamped.specs.Traces.{actor_of};
ghost use Rattle.cpu_worker.specs.Worlds.{world_cpus, sets_in, AreTurnsOf, IsReplayable, IsPlanIn};
ghost use Rattle.thread_actors.specs.Acts.{ArePlansIn, replay_in, HaveGone, AreDone, IsFirst, IsWithMain, HasEndedAll};
ghost use Rattle.thread_actors.specs.Turns.{AreTurnsFrom, AreUnused};

use crate::main_actor::{MainActor, begin, end};
use crate::side_by_side::run_all;
use crate::tasks::{Gathered, gather, latest_clock, new_tasks, push_both};
use actor_plan::bodies::Bodies;
use bt_core::memory::{Memory, sum};
use cpu_worker::world::{SharedWorld, WorkerTurns};
use stamped::trace::Trace;
use std::alloc::Global;
use std::sync::Wait;
use std::thread::Threads;
use turn_lock::gate::Gate;

/// Runs all CPUs side by side, from this clock on.
fn run_cpus<B: Bodies + Drop + Send, G: Gate + Sync, R: Threads + Wait + Sync>(
    rt: &R,
    alloc: Global,
    world: &SharedWorld,
    gate: &G,
    bodies: Vec<B>,
    turns: Vec<WorkerTurns>,
    clock: u64,
) -> Result<Gathered, Memory>
    requires replay { IsReplayable world.now }
    requires some { 0 < world_cpus world.now }
    requires cpus { length bodies.items ≡ world_cpus world.now }
    requires plans { ArePlansIn B.plan world.now bodies.items }
    requires many { length turns.items ≡ world_cpus world.now }
    requires turns { AreTurnsFrom (sets_in world.now) 0 turns.items }
    requires unused { Each AreUnused turns.items }
    ensures { IfOk result (λ all. (plans : ℕ → Plan) → HavePlans B.plan (world_cpus world.now) plans bodies.items →
        HaveGone (replay_in world.now plans) world.now clock all) }
{
    let mut tasks = new_tasks(alloc, world, bodies, turns, clock, gate)?;
    run_all(rt, alloc, world, &mut tasks);
    gather(alloc, tasks)
}

/// Takes the last bodies and the last turns, which are the main actor's. Its trace is empty.
fn main_actor<B: Bodies + Drop>(
    alloc: Global,
    world: &SharedWorld,
    bodies: &mut Vec<B>,
    turns: &mut Vec<WorkerTurns>,
) -> MainActor<B>
    requires replay { IsReplayable world.now }
    requires actors { length bodies.old.items ≡ world_cpus world.now + 1 }
    requires many { length turns.old.items ≡ world_cpus world.now + 1 }
    ensures bodies { bodies.new.items ≡ remove bodies.old.items (world_cpus world.now) }
    ensures turns { turns.new.items ≡ remove turns.old.items (world_cpus world.now) }
    ensures last_bodies { result.bodies ≡ slice_index_or bodies.old.items (world_cpus world.now) result.bodies }
    ensures last_turns { result.turns ≡ slice_index_or turns.old.items (world_cpus world.now) result.turns }
    ensures trace { IsFirst (world_cpus world.now) result.trace }
{
    let cpus = world.recording.cpus.len();
    let own = bodies.remove(cpus);
    let own_turns = turns.remove(cpus);
    let trace = Trace::new(alloc, cpus as u32);
    MainActor {
        bodies: own,
        turns: own_turns,
        trace,
    }
}

/// How many instructions `BEGIN`, the CPUs and `END` took together.
fn counted(begun: u64, cpus: u64, finished: u64) -> Result<u64, Memory>
    ensures { IfOk result (λ count. count ≡ begun + cpus + finished) }
{
    let both = sum(begun, cpus)?;
    sum(both, finished)
}

/// Puts the main actor's turns and trace behind those of the CPUs, and counts the instructions of `BEGIN` and `END` with theirs.
fn add_main<B: Bodies + Drop>(
    main: MainActor<B>,
    begun: u64,
    finished: u64,
    all: &mut Gathered,
) -> Result<(), Memory>
    ensures { OnOk result (IsWithMain main begun finished all.old all.new) }
{
    let (bodies, turns, trace) = main.into_parts();
    drop(bodies);
    push_both(&mut all.turns, &mut all.traces, turns, trace)?;
    all.instructions = counted(begun, all.instructions, finished)?;
    Ok(())
}

/// Runs `END`, from the latest clock on, and puts what the main actor leaves behind what the CPUs left.
fn end_all<B: Bodies + Drop, G: Gate, R: Wait>(
    rt: &R,
    alloc: Global,
    world: &SharedWorld,
    gate: &G,
    mut main: MainActor<B>,
    begun: u64,
    mut all: Gathered,
) -> Result<Gathered, Memory>
    requires replay { IsReplayable world.now }
    requires turns { AreTurnsOf (sets_in world.now) (actor_of main.trace) main.turns }
    requires plan { IsPlanIn world.now (actor_of main.trace) (B.plan main.bodies) }
    ensures { IfOk result (λ left. HasEndedAll B.plan world.now main begun all left) }
{
    main.trace.raise(latest_clock(all.traces.as_slice()));
    let (main, finished) = end(rt, alloc, world, gate, main)?;
    add_main(main, begun, finished, &mut all)?;
    Ok(all)
}

/// Runs `BEGIN`, then all CPUs, each on a thread of its own, and then `END`.
pub fn run_actors<B: Bodies + Drop + Send, G: Gate + Sync, R: Threads + Wait + Sync>(
    rt: &R,
    alloc: Global,
    world: &SharedWorld,
    gate: &G,
    mut bodies: Vec<B>,
    mut turns: Vec<WorkerTurns>,
) -> Result<Gathered, Memory>
    requires replay { IsReplayable world.now }
    requires some { 0 < world_cpus world.now }
    requires actors { length bodies.items ≡ world_cpus world.now + 1 }
    requires plans { ArePlansIn B.plan world.now bodies.items }
    requires many { length turns.items ≡ world_cpus world.now + 1 }
    requires turns { AreTurnsFrom (sets_in world.now) 0 turns.items }
    requires unused { Each AreUnused turns.items }
    ensures { IfOk result (λ all. (plans : ℕ → Plan) → HavePlans B.plan (world_cpus world.now + 1) plans bodies.items →
        AreDone (replay_in world.now plans) world.now all) }
{
    let main = main_actor(alloc, world, &mut bodies, &mut turns);
    let (main, begun) = begin(rt, alloc, world, gate, main)?;
    let clock = main.trace.clock();
    let all = run_cpus(rt, alloc, world, gate, bodies, turns, clock)?;
    end_all(rt, alloc, world, gate, main, begun, all)
}
