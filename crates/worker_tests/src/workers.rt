// The workers of two CPUs.
ghost use Rattle.std.specs.Prelude.{◌≡◌, ℕ, ◌<◌, length, slice_index_or, IfOk};
ghost use Rattle.cpu_worker.specs.Worlds.{sets_in, world_cpus, AreTurnsOf, IsReplayable, IsPlanIn};
ghost use Rattle.cpu_worker.specs.Workers.{IsReadyWorker};

use actor_plan::bodies::Bodies;
use actor_plan::outcome::Outcome;
use bt_core::memory::Memory;
use cpu_worker::worker::CpuWorker;
use cpu_worker::world::{SharedWorld, WorkerTurns};
use stamped::trace::Trace;
use std::alloc::Global;
use std::sync::Wait;
use std::thread;
use std::thread::Threads;
use turn_lock::gate::Gate;

/// A worker, and how its run ended, once it was run.
#[derive(Drop)]
pub struct Task<'g, B, G: Gate> {
    pub worker: CpuWorker<'g, B, G>,
    pub ended: Option<Result<Outcome, Memory>>,
}

/// A worker of a CPU with these bodies and turns, which was not run.
pub fn new_task<'g, B: Bodies, G: Gate>(
    alloc: Global,
    world: &SharedWorld,
    cpu: u32,
    bodies: B,
    gate: &'g G,
    turns: WorkerTurns,
) -> Task<'g, B, G>
    requires replay { IsReplayable world.now }
    requires known { cpu < world_cpus world.now }
    requires plan { IsPlanIn world.now cpu (B.plan bodies) }
    requires turns { AreTurnsOf (sets_in world.now) cpu turns }
    ensures ready { IsReadyWorker B.plan world.now result.worker }
    ensures cpu { result.worker.cpu ≡ cpu }
{
    let worker = CpuWorker::new(cpu, bodies, gate, turns, Trace::new(alloc, cpu));
    Task {
        worker,
        ended: None,
    }
}

/// What every thread takes to run a worker.
#[derive(Drop)]
struct Common<'a, R> {
    rt: &'a R,
    alloc: Global,
    world: &'a SharedWorld<'a>,
}

/// Runs a worker, and keeps how that ended.
fn run_one<B: Bodies, G: Gate, R: Wait>(common: &Common<R>, task: &mut Task<B, G>)
    requires { IsReadyWorker B.plan common.now.world.now task.old.worker }
    ensures { AreTurnsOf (sets_in common.now.world.now) task.old.worker.cpu task.new.worker.turns }
{
    task.ended = Some(task.worker.run(common.rt, common.alloc, common.world));
}

/// Runs each of these workers: on one thread, one behind the other, or on as many as there are.
fn run_each<B: Bodies + Send, G: Gate + Sync, R: Threads + Wait + Sync>(
    rt: &R,
    alloc: Global,
    world: &SharedWorld,
    tasks: &mut [Task<B, G>],
    threads: usize,
)
    requires some { 0 < threads }
    requires ready { (i : ℕ) (d : Task B G) → i < length tasks.old → IsReadyWorker B.plan world.now (slice_index_or tasks.old i d).worker }
    ensures { (i : ℕ) (d : Task B G) → i < length tasks.old →
        AreTurnsOf (sets_in world.now) (slice_index_or tasks.old i d).worker.cpu (slice_index_or tasks.new i d).worker.turns }
{
    let common = Common { rt, alloc, world };
    let shared = &common;
    thread::for_each_mut(rt, tasks, threads, &|_, task| run_one(shared, task));
}

/// The same, of a vector.
fn run_all<B: Bodies + Send, G: Gate + Sync, R: Threads + Wait + Sync>(
    rt: &R,
    alloc: Global,
    world: &SharedWorld,
    tasks: &mut Vec<Task<B, G>>,
    threads: usize,
)
    requires some { 0 < threads }
    requires ready { (i : ℕ) (d : Task B G) → i < length tasks.old.items → IsReadyWorker B.plan world.now (slice_index_or tasks.old.items i d).worker }
    ensures same { length tasks.new.items ≡ length tasks.old.items }
    ensures ran { (i : ℕ) (d : Task B G) → i < length tasks.old.items →
        AreTurnsOf (sets_in world.now) (slice_index_or tasks.old.items i d).worker.cpu (slice_index_or tasks.new.items i d).worker.turns }
{
    run_each(rt, alloc, world, tasks.as_mut_slice(), threads);
}

/// In which order two workers run.
#[derive(Clone, Copy, PartialEq, Eq, Debug)]
pub enum Order {
    /// On one thread, the second CPU's when the first one's has ended.
    FirstBefore,
    /// On one thread, the first CPU's when the second one's has ended.
    SecondBefore,
    /// Each on a thread of its own.
    Beside,
}

/// Runs two workers on so many threads, and gives them back.
fn run_two<'g, B: Bodies + Drop + Send, G: Gate + Sync, R: Threads + Wait + Sync>(
    rt: &R,
    alloc: Global,
    world: &SharedWorld,
    threads: usize,
    one: Task<'g, B, G>,
    other: Task<'g, B, G>,
) -> Result<(Task<'g, B, G>, Task<'g, B, G>), Memory>
    requires some { 0 < threads }
    requires one { IsReadyWorker B.plan world.now one.worker }
    requires other { IsReadyWorker B.plan world.now other.worker }
    ensures one { IfOk result (λ r. AreTurnsOf (sets_in world.now) one.entry.worker.cpu r.0.worker.turns) }
    ensures other { IfOk result (λ r. AreTurnsOf (sets_in world.now) other.entry.worker.cpu r.1.worker.turns) }
{
    let mut tasks = Vec::with_capacity(alloc, 2)?;
    tasks.push_reserved(one);
    tasks.push_reserved(other);
    run_all(rt, alloc, world, &mut tasks, threads);
    let other = tasks.remove(1);
    let one = tasks.remove(0);
    Ok((one, other))
}

/// Runs the workers of both CPUs in this order, and gives them back.
pub fn run_both<'g, B: Bodies + Drop + Send, G: Gate + Sync, R: Threads + Wait + Sync>(
    rt: &R,
    alloc: Global,
    world: &SharedWorld,
    order: Order,
    first: Task<'g, B, G>,
    second: Task<'g, B, G>,
) -> Result<(Task<'g, B, G>, Task<'g, B, G>), Memory>
    requires first { IsReadyWorker B.plan world.now first.worker }
    requires second { IsReadyWorker B.plan world.now second.worker }
    ensures first { IfOk result (λ r. AreTurnsOf (sets_in world.now) first.entry.worker.cpu r.0.worker.turns) }
    ensures second { IfOk result (λ r. AreTurnsOf (sets_in world.now) second.entry.worker.cpu r.1.worker.turns) }
{
    match order {
        Order::FirstBefore => run_two(rt, alloc, world, 1, first, second),
        Order::SecondBefore => {
            let (second, first) = run_two(rt, alloc, world, 1, second, first)?;
            Ok((first, second))
        }
        Order::Beside => run_two(rt, alloc, world, 2, first, second),
    }
}
