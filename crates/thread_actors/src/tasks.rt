// The CPUs of a run, each with a worker.
ghost use Rattle.std.specs.Prelude.{◌≡◌, ◌+◌, ◌∷◌, ◌++◌, [], map, sum as total, length, IfOk, IsSome};
ghost use Rattle.turn_lock.specs.History.{Each};
ghost use Rattle.weave.specs.Ends.{latest};
ghost use Rattle.thread_actors.specs.Tasks.{bodies_in, turns_in, trace_in, count_in, count_of, IsWell, HasEnded, HasEndedWell, IsFresh};
ghost use Rattle.thread_actors.specs.Turns.{AreOneActors};

use crate::side_by_side::Task;
use actor_plan::bodies::Bodies;
use actor_plan::outcome::Outcome;
use bt_core::memory::{Memory, sum};
use cpu_worker::worker::CpuWorker;
use cpu_worker::world::{SharedWorld, WorkerTurns};
use stamped::trace::Trace;
use std::alloc::Global;
use turn_lock::gate::Gate;

/// What actors leave: their turns and their traces, in the order of the actors, and how many instructions they took.
#[derive(Drop)]
pub struct Gathered {
    pub turns: Vec<WorkerTurns>,
    pub traces: Vec<Trace>,
    pub instructions: u64,
}

/// How many entries the CPU at a place has. Most scripts make at least a step for each.
fn entries_of(world: &SharedWorld, cpu: u32) -> usize {
    match world.recording.cpus.get(cpu as usize) {
        Some(track) => track.entries.len(),
        None => 0,
    }
}

/// A worker of the CPU with these bodies and turns, which was not run. Its trace is empty and has this clock.
fn new_task<'g, B: Bodies + Drop, G: Gate>(
    alloc: Global,
    world: &SharedWorld,
    bodies: B,
    turns: WorkerTurns,
    clock: u64,
    gate: &'g G,
) -> Task<'g, B, G>
    requires by { AreOneActors turns }
    ensures bodies { bodies_in result ≡ bodies }
    ensures turns { turns_in result ≡ turns }
    ensures fresh { IsFresh clock result }
{
    let cpu = turns.tables.actor();
    let mut trace = Trace::new(alloc, cpu);
    trace.expect(entries_of(world, cpu));
    trace.raise(clock);
    Task {
        worker: CpuWorker::new(cpu, bodies, gate, turns, trace),
        ended: None,
    }
}

/// Workers of the CPUs with these bodies and turns, in their order. Their traces are empty and have this clock.
pub(crate) fn new_tasks<'g, B: Bodies + Drop, G: Gate>(
    alloc: Global,
    world: &SharedWorld,
    bodies: Vec<B>,
    turns: Vec<WorkerTurns>,
    clock: u64,
    gate: &'g G,
) -> Result<Vec<Task<'g, B, G>>, Memory>
    requires many { length turns.items ≡ length bodies.items }
    requires by { Each AreOneActors turns.items }
    ensures bodies { IfOk result (λ tasks. map bodies_in tasks.items ≡ bodies.items) }
    ensures turns { IfOk result (λ tasks. map turns_in tasks.items ≡ turns.items) }
    ensures fresh { IfOk result (λ tasks. Each (IsFresh clock) tasks.items) }
{
    let mut tasks = Vec::new(alloc);
    for (own, own_turns) in bodies.into_iter().zip(turns) {
        tasks.push(new_task(alloc, world, own, own_turns, clock, gate))?;
    }
    Ok(tasks)
}

/// Puts one value behind each of two lists.
pub(crate) fn push_both<A: Drop, B: Drop>(
    firsts: &mut Vec<A>,
    seconds: &mut Vec<B>,
    first: A,
    second: B,
) -> Result<(), Memory>
    ensures firsts { IfOk result (λ _. firsts.new.items ≡ firsts.old.items ++ first ∷ []) }
    ensures seconds { IfOk result (λ _. seconds.new.items ≡ seconds.old.items ++ second ∷ []) }
{
    firsts.push(first)?;
    seconds.push(second)?;
    Ok(())
}

/// So many instructions and those of a run that has ended, or [`Memory`] where it ended so.
fn count_with(instructions: u64, ended: Option<Result<Outcome, Memory>>) -> Result<u64, Memory>
    requires ended { IsSome ended }
    ensures count { IfOk result (λ count. count ≡ instructions + count_of ended) }
    ensures well { IfOk result (λ _. IsWell ended) }
{
    let outcome = ended.unwrap()?;
    sum(instructions, outcome.instructions)
}

/// Puts what a worker leaves, which was run, behind what others left, or answers [`Memory`] where its run ended so.
fn add_task<B: Bodies + Drop, G: Gate>(task: Task<B, G>, all: &mut Gathered) -> Result<(), Memory>
    requires ended { HasEnded task }
    ensures turns { IfOk result (λ _. all.new.turns.items ≡ all.old.turns.items ++ turns_in task.entry ∷ []) }
    ensures traces { IfOk result (λ _. all.new.traces.items ≡ all.old.traces.items ++ trace_in task.entry ∷ []) }
    ensures instructions { IfOk result (λ _. all.new.instructions ≡ all.old.instructions + count_in task.entry) }
    ensures well { IfOk result (λ _. HasEndedWell task.entry) }
{
    let Task { worker, ended } = task;
    let (turns, trace) = worker.finish();
    push_both(&mut all.turns, &mut all.traces, turns, trace)?;
    all.instructions = count_with(all.instructions, ended)?;
    Ok(())
}

/// What the workers leave, each of which was run, or [`Memory`] where one of them ended so.
pub(crate) fn gather<B: Bodies + Drop, G: Gate>(
    alloc: Global,
    tasks: Vec<Task<B, G>>,
) -> Result<Gathered, Memory>
    requires ended { Each HasEnded tasks.items }
    ensures turns { IfOk result (λ all. all.turns.items ≡ map turns_in tasks.entry.items) }
    ensures traces { IfOk result (λ all. all.traces.items ≡ map trace_in tasks.entry.items) }
    ensures instructions { IfOk result (λ all. all.instructions ≡ total (map count_in tasks.entry.items)) }
    ensures well { IfOk result (λ _. Each HasEndedWell tasks.entry.items) }
{
    let mut all = Gathered {
        turns: Vec::new(alloc),
        traces: Vec::new(alloc),
        instructions: 0,
    };
    for task in tasks {
        add_task(task, &mut all)?;
    }
    Ok(all)
}

/// The latest clock of these traces, or 0.
pub(crate) fn latest_clock(traces: &[Trace]) -> u64
    ensures { result ≡ latest traces.now }
{
    let mut most = 0;
    for trace in traces {
        most = trace.clock().max(most);
    }
    most
}
