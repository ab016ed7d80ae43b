// Workers side by side, each on a thread of its own.
ghost use Rattle.std.specs.Prelude.{◌≡◌, ℕ, ◌<◌, length, slice_index_or};
ghost use Rattle.cpu_worker.specs.Workers.{IsReadyWorker};
ghost use Rattle.thread_actors.specs.Ran.{HasRun};
ghost use Rattle.thread_actors.specs.declared.side_by_side.Task.{Task};

use actor_plan::bodies::Bodies;
use actor_plan::outcome::Outcome;
use bt_core::memory::Memory;
use cpu_worker::worker::CpuWorker;
use cpu_worker::world::SharedWorld;
use std::alloc::Global;
use std::sync::Wait;
use std::thread;
use std::thread::Threads;
use turn_lock::gate::Gate;

/// A worker, and how its run ended, once it was run.
#[derive(Drop)]
pub(crate) struct Task<'g, B, G: Gate> {
    pub(crate) worker: CpuWorker<'g, B, G>,
    pub(crate) ended: Option<Result<Outcome, Memory>>,
}

/// What every thread takes to run a worker.
#[derive(Drop)]
struct Common<'a, R> {
    rt: &'a R,
    alloc: Global,
    world: &'a SharedWorld<'a>,
}

/// Runs a worker, and keeps how that ended.
fn run_one<B: Bodies, G: Gate, R: Wait>(common: &Common<R>, task: &mut Task<B, G>)
    requires { IsReadyWorker B.plan common.now.world.now task.old.worker }
    ensures { HasRun B.plan common.now.world.now task.old task.new }
{
    task.ended = Some(task.worker.run(common.rt, common.alloc, common.world));
}

/// Runs each of these workers, on a thread of its own where threads can be started.
fn run_each<B: Bodies + Send, G: Gate + Sync, R: Threads + Wait + Sync>(
    rt: &R,
    alloc: Global,
    world: &SharedWorld,
    tasks: &mut [Task<B, G>],
)
    requires some { 0 < length tasks.old }
    requires ready { (i : ℕ) (d : Task B G) → i < length tasks.old → IsReadyWorker B.plan world.now (slice_index_or tasks.old i d).worker }
    ensures { (i : ℕ) (d : Task B G) → i < length tasks.old → HasRun B.plan world.now (slice_index_or tasks.old i d) (slice_index_or tasks.new i d) }
{
    let threads = tasks.len();
    let common = Common { rt, alloc, world };
    let shared = &common;
    thread::for_each_mut(rt, tasks, threads, &|_, task| run_one(shared, task));
}

/// Runs all workers, each on a thread of its own where threads can be started; where one cannot, the caller runs the worker
/// itself. There is at least one. Each keeps how its run ended.
pub(crate) fn run_all<B: Bodies + Send, G: Gate + Sync, R: Threads + Wait + Sync>(
    rt: &R,
    alloc: Global,
    world: &SharedWorld,
    tasks: &mut Vec<Task<B, G>>,
)
    requires some { 0 < length tasks.old.items }
    requires ready { (i : ℕ) (d : Task B G) → i < length tasks.old.items →
        IsReadyWorker B.plan world.now (slice_index_or tasks.old.items i d).worker }
    ensures same { length tasks.new.items ≡ length tasks.old.items }
    ensures ran { (i : ℕ) (d : Task B G) → i < length tasks.old.items →
        HasRun B.plan world.now (slice_index_or tasks.old.items i d) (slice_index_or tasks.new.items i d) }
{
    run_each(rt, alloc, world, tasks.as_mut_slice());
}
