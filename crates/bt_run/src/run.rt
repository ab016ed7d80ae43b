// Whole runs.
ghost use Rattle.std.specs.Prelude.{◌≡◌, ◌+◌, ◌<◌, ◌^◌, List, [], length, map, All, IfOk};
ghost use Rattle.bt_core.specs.declared.step.ObjectId.{ObjectId};
ghost use Rattle.bt_core.specs.Kinds.{IsFineDecl};
ghost use Rattle.bt_core.specs.Steps.{on_object};
ghost use Rattle.bpf_insn.specs.declared.insn.Insn.{Insn};
ghost use Rattle.bt_meaning.specs.Instructions.{instructions_of};
ghost use Rattle.bt_meaning.specs.Interleavings.{IsReplayed};
ghost use Rattle.bt_meaning.specs.Jobs.{IsJob};
ghost use Rattle.bt_meaning.specs.Replays.{cpus_of};
ghost use Rattle.bt_meaning.specs.Serial.{serial_steps, unstamped};
ghost use Rattle.bt_meaning.specs.Walks.{replay_of};
ghost use Rattle.code_runs.specs.Coding.{code_replay};
ghost use Rattle.code_runs.specs.Programs.{AreCodesOf, KeepScript};
ghost use Rattle.step_list.specs.Lists.{steps_in};
ghost use Rattle.run_output.specs.Jobs.{cpus_in, world_for};
ghost use Rattle.run_objects.specs.Moments.{Moment};
ghost use Rattle.run_objects.specs.Objects.{Stand};
ghost use Rattle.run_output.specs.Outputs.{output_of};
ghost use Rattle.bt_run.specs.Ran.{HasRun};

use crate::serial::make_steps;
use bt_core::items::Items;
use bt_core::memory::Memory;
use bt_meaning::schedule::Schedule;
use code_runs::codes::codes_of;
use code_runs::laws::{code_means_walks, codes_take_few};
use run_objects::closed::Closed;
use run_objects::ends::read_maps;
use run_objects::new_objects::new_objects;
use run_objects::objects::Objects;
use run_output::form::{Form, output_of_run};
use run_output::held::job_is_held;
use run_output::job::{Job, Work};
use std::alloc::Global;
use std::snapshot::Snapshot;
use step_list::list::StepList;
use weave::woven::Woven;

/// A run that has ended: its objects, its steps in the order in which they were made, the same steps in the order of
/// their stamps, and how many instructions were executed.
#[derive(Drop)]
struct Ran {
    objects: Closed,
    made: Snapshot<StepList>,
    steps: Woven,
    instructions: u64,
}

/// The objects of a job, which no step was made at.
fn job_objects(alloc: Global, job: &Job) -> Result<Objects, Memory>
    requires fine { All IsFineDecl job.now.typed.maps }
    requires some_cpus { 0 < cpus_in job.now }
    requires few_cpus { cpus_in job.now + 1 < 2 ^ 32 }
    requires few_ticks { length job.now.attached.ticks < 2 ^ 32 }
    ensures { IfOk result (λ objects. Stand (world_for job.now) [] objects) }
{
    let cpus = job.recording.cpus.len() as u32;
    let ticks = job.attached.ticks.len() as u32;
    new_objects(alloc, &job.typed.maps, cpus, ticks)
}

/// Runs a job on one thread, each body by its code, up to its list of steps.
fn make_run(alloc: Global, job: &Job) -> Result<Ran, Memory>
    requires job { IsJob job.now.typed job.now.attached job.now.recording }
    requires programs { KeepScript job.now.typed job.now.programs }
    ensures { IfOk result (λ ran. HasRun job.now ran) }
{
    code_means_walks();
    codes_take_few();
    job_is_held(job);
    let codes = codes_of(alloc, job.programs.as_slice())?;
    let schedule = Schedule::new(alloc, &job.recording, &job.attached)?;
    let objects = job_objects(alloc, job)?;
    let (objects, steps, instructions) = make_steps(
        alloc,
        job,
        codes.as_slice(),
        schedule,
        objects,
    )?;
    let made = Snapshot::of(&steps);
    let mut lists = Vec::new(alloc);
    lists.push(steps)?;
    let steps = Woven::of(lists)?;
    steps.replies_are_held();
    Ok(Ran {
        objects,
        made,
        steps,
        instructions,
    })
}

/// What a run that has ended writes in a form.
fn output_of(alloc: Global, form: Form, job: &Job, ran: &Ran) -> Result<Items<u8>, Memory>
    ghost at: { Moment }
    requires run { HasRun job.now ran.now }
    requires world { at.world ≡ world_for job.now }
    requires made { at.steps ≡ steps_in ran.now.made.value }
    ensures { let p = replay_of job.now.typed job.now.attached job.now.recording in
        IfOk result (λ output. output ≡ output_of form job.now.typed (cpus_of p) ran.now.steps) }
{
    let script = &job.typed;
    let (rows, lost) = read_maps(alloc, script.maps.as_slice(), &ran.objects)?;
    let output = output_of_run(
        alloc,
        form,
        script,
        &ran.steps,
        rows.as_slice(),
        lost.as_slice(),
    )?;
    Ok(output)
}

/// Runs a job on one thread, each body by the code that its program is: `BEGIN`, the items of all agendas in the serial
/// order, each by its CPU where the CPU still goes on, and `END`. Each program is decoded once.
///
/// The steps are an interleaving of the script over the recording, in the order of their stamps (`replayed`); at each
/// object they are those of the serial list (`serial`); the text is what they print in the form (`printed`), and what
/// the serial list prints in it (`printed_serial`). The instructions are those that the codes of the programs take
/// under the replies in the steps (`instructions`). Beside what the bodies take it takes time linear in the steps and
/// the recording, for each item by the logarithm of the number of CPUs, and the sort of what is emitted.
///
/// # Errors
///
/// [`Memory`] is the one error, also where a stamp or a count would not fit.
pub fn run_serial(alloc: Global, form: Form, job: &Job) -> Result<Work, Memory>
    requires job { IsJob job.now.typed job.now.attached job.now.recording }
    requires programs { KeepScript job.now.typed job.now.programs }
    ensures replayed { let p = replay_of job.now.typed job.now.attached job.now.recording in IfOk result (λ work. IsReplayed p work.steps) }
    ensures serial { let p = replay_of job.now.typed job.now.attached job.now.recording in IfOk result (λ work. (object : ObjectId) →
        map unstamped (on_object object work.steps) ≡ on_object object (serial_steps p)) }
    ensures printed { let p = replay_of job.now.typed job.now.attached job.now.recording in IfOk result (λ work.
        work.text ≡ output_of form job.now.typed (cpus_of p) work.steps) }
    ensures printed_serial { let p = replay_of job.now.typed job.now.attached job.now.recording in IfOk result (λ work.
        output_of form job.now.typed (cpus_of p) work.steps ≡ output_of form job.now.typed (cpus_of p) (serial_steps p)) }
    ensures instructions { IfOk result (λ work. (codes : List (List Insn)) → AreCodesOf job.now.programs codes →
        work.instructions ≡ instructions_of (code_replay job.now.typed codes job.now.attached job.now.recording) work.steps) }
{
    let ran = make_run(alloc, job)?;
    let text = output_of(alloc, form, job, &ran)?;
    let Ran {
        objects: _,
        made: _,
        steps,
        instructions,
    } = ran;
    Ok(Work {
        steps,
        text,
        instructions,
    })
}
