// The run on one thread, up to its list of steps.
ghost use Rattle.std.specs.Prelude.{◌≡◌, ◌+◌, ◌<◌, [], true, false, length, map, replicate, slice_index_or, IfOk, OnOk};
ghost use Rattle.std.specs.List.{AllByRecursion};
ghost use Rattle.code_runs.specs.Coding.{CanRunCode};
ghost use Rattle.bt_meaning.specs.Schedules.{serial_order, cpu_of_due as due_cpu, item_of_due as due_item};
ghost use Rattle.bt_meaning.specs.Replays.{begin_of, end_of};
ghost use Rattle.bt_meaning.specs.Serial.{unstamped, then_steps, then_value, taken};
ghost use Rattle.step_list.specs.Lists.{steps_in};
ghost use Rattle.bt_run.specs.Counts.{taken_count, TakesNext};
ghost use Rattle.run_output.specs.Jobs.{coded_by, cpus_in, plans_by, world_for, CanRunAll};
ghost use Rattle.bt_run.specs.Made.{IsMade};
ghost use Rattle.run_objects.specs.Objects.{Stand};
ghost use Rattle.bt_run.specs.Runs.{first_turn};

use crate::port::SerialPort;
use actor_plan::agenda::AgendaItem;
use actor_plan::program::{run_begin, run_end, take_item};
use bpf_interp::code::Code;
use bt_core::memory::{Memory, sum};
use bt_meaning::schedule::{Due, Schedule, Scheduled};
use recordings::recording::Recording;
use run_objects::closed::Closed;
use run_objects::objects::Objects;
use run_output::bodies::bodies_at;
use run_output::job::Job;
use std::alloc::Global;
use step_list::list::StepList;

/// Whose item it is.
fn cpu_of_due(due: &Due) -> u32
    ensures { result ≡ due_cpu due.now }
{
    match due {
        Due::Tick { cpu, .. } => *cpu,
        Due::Entry { cpu, .. } => *cpu,
    }
}

/// The item as its CPU's agenda has it.
fn item_of_due(due: &Due) -> AgendaItem
    ensures { result ≡ due_item due.now }
{
    match due {
        Due::Tick { tick, .. } => AgendaItem::Tick(*tick),
        Due::Entry { entry, lost, .. } => {
            if *lost {
                AgendaItem::Lost(*entry)
            } else {
                AgendaItem::Event(*entry)
            }
        }
    }
}

/// Whether a CPU's program goes on.
fn goes_on(going: &[bool], cpu: u32) -> bool
    ensures { result ≡ slice_index_or going.now cpu false }
{
    match going.get(cpu as usize) {
        Some(on) => *on,
        None => false,
    }
}

/// Takes one item, if its CPU's program goes on, and notes whether it still does. Gives how many instructions were executed.
fn take_next(
    alloc: Global,
    job: &Job,
    codes: &[Code],
    item: &Scheduled,
    going: &mut Vec<bool>,
    port: &mut SerialPort,
) -> Result<u64, Memory>
    requires can { CanRunAll job.now (plans_by job.now codes.now) }
    requires can_run { AllByRecursion CanRunCode codes.now }
    requires among { port.old.turn.among ≡ true }
    requires world { port.old.world ≡ world_for job.now }
    requires long { length going.old.items ≡ cpus_in job.now }
    ensures next { IfOk result (λ count. TakesNext (coded_by job.now codes.now) item.now count
        going.old.items (map unstamped port.old.steps) going.new.items (map unstamped port.new.steps)) }
    ensures long { OnOk result (length going.new.items ≡ cpus_in job.now) }
    ensures world { OnOk result (port.new.world ≡ world_for job.now) }
    ensures among { OnOk result (port.new.turn.among ≡ true) }
    ensures begun { OnOk result (port.new.turn.begun ≡ port.old.turn.begun) }
{
    let cpu = cpu_of_due(&item.due);
    if !goes_on(going.as_slice(), cpu) {
        return Ok(0);
    }
    port.turn_to(cpu);
    let track = &job.recording.cpus.as_slice()[cpu as usize];
    let mut bodies = bodies_at(job, codes, cpu);
    let taken = take_item(
        alloc,
        &mut bodies,
        &job.recording,
        &job.attached,
        track,
        job.typed.uses_exit,
        item_of_due(&item.due),
        port,
    )?;
    port.stands();
    going[cpu as usize] = taken.to_end;
    Ok(taken.instructions)
}

/// Takes all items in their order, but those of a CPU whose program has ended.
fn take_all(
    alloc: Global,
    job: &Job,
    codes: &[Code],
    schedule: &mut Schedule<'_>,
    port: &mut SerialPort,
) -> Result<u64, Memory>
    requires can { CanRunAll job.now (plans_by job.now codes.now) }
    requires can_run { AllByRecursion CanRunCode codes.now }
    requires among { port.old.turn.among ≡ true }
    requires world { port.old.world ≡ world_for job.now }
    ensures serial { OnOk result (taken (coded_by job.now codes.now) schedule.old (replicate (cpus_in job.now) true)
        (map unstamped port.old.steps) ≡ map unstamped port.new.steps) }
    ensures counted { IfOk result (λ count. count ≡ taken_count (coded_by job.now codes.now) schedule.old (replicate (cpus_in job.now) true)
        (map unstamped port.old.steps)) }
    ensures world { OnOk result (port.new.world ≡ world_for job.now) }
    ensures among { OnOk result (port.new.turn.among ≡ true) }
    ensures begun { OnOk result (port.new.turn.begun ≡ port.old.turn.begun) }
{
    let mut going = vec![in alloc; true; job.recording.cpus.len()]?;
    let mut total = 0;
    while let Some(item) = schedule.next() {
        let count = take_next(alloc, job, codes, &item, &mut going, port)?;
        total = sum(total, count)?;
    }
    Ok(total)
}

/// Runs the bodies of `BEGIN`.
fn begin(alloc: Global, job: &Job, codes: &[Code], port: &mut SerialPort) -> Result<u64, Memory>
    requires can { CanRunAll job.now (plans_by job.now codes.now) }
    requires can_run { AllByRecursion CanRunCode codes.now }
    requires first { port.old.turn ≡ first_turn (cpus_in job.now) }
    requires none { port.old.steps ≡ [] }
    requires world { port.old.world ≡ world_for job.now }
    ensures serial { OnOk result (then_steps (coded_by job.now codes.now) (cpus_in job.now) (begin_of (coded_by job.now codes.now)) []
        ≡ map unstamped port.new.steps) }
    ensures counted { IfOk result (λ count. count ≡
        then_value (coded_by job.now codes.now) (cpus_in job.now) (begin_of (coded_by job.now codes.now)) []) }
    ensures world { OnOk result (port.new.world ≡ world_for job.now) }
    ensures among { OnOk result (port.new.turn.among ≡ true) }
    ensures begun { OnOk result (port.new.turn.begun ≡ length port.new.steps) }
{
    let main = job.recording.cpus.len();
    let mut bodies = bodies_at(job, codes, main as u32);
    let count = run_begin(alloc, &mut bodies, &job.recording, &job.attached, port)?;
    port.stands();
    port.go_to_cpus();
    Ok(count)
}

/// Runs the bodies of `END`.
fn end(alloc: Global, job: &Job, codes: &[Code], port: &mut SerialPort) -> Result<u64, Memory>
    requires can { CanRunAll job.now (plans_by job.now codes.now) }
    requires can_run { AllByRecursion CanRunCode codes.now }
    requires among { port.old.turn.among ≡ true }
    requires world { port.old.world ≡ world_for job.now }
    ensures serial { OnOk result (then_steps (coded_by job.now codes.now) (cpus_in job.now) (end_of (coded_by job.now codes.now))
        (map unstamped port.old.steps) ≡ map unstamped port.new.steps) }
    ensures counted { IfOk result (λ count. count ≡
        then_value (coded_by job.now codes.now) (cpus_in job.now) (end_of (coded_by job.now codes.now)) (map unstamped port.old.steps)) }
    ensures world { OnOk result (port.new.world ≡ world_for job.now) }
    ensures begun { OnOk result (port.new.turn.begun ≡ port.old.turn.begun) }
{
    port.go_to_end();
    let main = job.recording.cpus.len();
    let mut bodies = bodies_at(job, codes, main as u32);
    let count = run_end(alloc, &mut bodies, &job.recording, &job.attached, port)?;
    port.stands();
    Ok(count)
}

/// How many entries a recording has. Most scripts make at least a step for each.
fn entries_of(recording: &Recording) -> usize {
    let mut count = 0usize;
    for track in recording.cpus.as_slice() {
        count = count.saturating_add(track.entries.len());
    }
    count
}

/// Runs a job on one thread: `BEGIN`, the items in the serial order, and `END`. Gives the objects that hold maps as they
/// then are, the steps in the order in which they were made, and how many instructions were executed.
pub(crate) fn make_steps(
    alloc: Global,
    job: &Job,
    codes: &[Code],
    mut schedule: Schedule<'_>,
    objects: Objects,
) -> Result<(Closed, StepList, u64), Memory>
    requires can { CanRunAll job.now (plans_by job.now codes.now) }
    requires can_run { AllByRecursion CanRunCode codes.now }
    requires order { schedule ≡ serial_order job.now.recording job.now.attached }
    requires stand { Stand (world_for job.now) [] objects }
    ensures { IfOk result (λ made. IsMade job.now (plans_by job.now codes.now) made.0 (steps_in made.1) made.2) }
{
    let cpus = job.recording.cpus.len() as u32;
    let ticks = job.attached.ticks.len() as u32;
    let expected = entries_of(&job.recording);
    let mut port = SerialPort::new(alloc, objects, &job.typed.maps, cpus, ticks, expected)?;
    let begun = begin(alloc, job, codes, &mut port)?;
    let taken = take_all(alloc, job, codes, &mut schedule, &mut port)?;
    let ended = end(alloc, job, codes, &mut port)?;
    let (objects, steps) = port.into_parts();
    let closed = objects.close(alloc)?;
    Ok((closed, steps, sum(sum(begun, taken)?, ended)?))
}
