// Whole runs on threads.
ghost use Rattle.std.specs.Prelude.{◌≡◌, List, IfOk};
ghost use Rattle.bpf_insn.specs.declared.insn.Insn.{Insn};
ghost use Rattle.bt_meaning.specs.Instructions.{instructions_of};
ghost use Rattle.bt_meaning.specs.Interleavings.{IsReplayed};
ghost use Rattle.bt_meaning.specs.Jobs.{IsJob};
ghost use Rattle.bt_meaning.specs.Replays.{cpus_of};
ghost use Rattle.bt_meaning.specs.Texts.{EmitOwn};
ghost use Rattle.bt_meaning.specs.Walks.{replay_of};
ghost use Rattle.code_runs.specs.Coding.{code_replay};
ghost use Rattle.code_runs.specs.Programs.{AreCodesOf, KeepScript};
ghost use Rattle.run_output.specs.Jobs.{cpus_in, world_for};
ghost use Rattle.run_objects.specs.Moments.{Moment};
ghost use Rattle.run_objects.specs.Closed.{AreClosedAt};
ghost use Rattle.run_output.specs.Outputs.{output_of};

use crate::made::make_steps;
use bt_core::items::Items;
use bt_core::memory::Memory;
use code_runs::codes::codes_of;
use code_runs::laws::{code_means_walks, codes_take_few};
use run_objects::closed::Closed;
use run_objects::ends::read_maps;
use run_output::form::{Form, output_of_run};
use run_output::held::job_is_held;
use run_output::job::{Job, Work};
use std::alloc::Global;
use std::sync::Wait;
use std::thread::Threads;
use turn_lock::gate::Gate;
use weave::woven::Woven;

/// What a run of a job that made these steps and left these objects writes in a form.
fn output_of(
    alloc: Global,
    form: Form,
    job: &Job,
    closed: &Closed,
    steps: &Woven,
) -> Result<Items<u8>, Memory>
    ghost at: { Moment }
    requires closed { AreClosedAt at closed.now }
    requires world { at.world ≡ world_for job.now }
    requires steps { at.steps ≡ steps.now }
    requires own { EmitOwn job.now.typed steps.now }
    ensures { IfOk result (λ output. output ≡ output_of form job.now.typed (cpus_in job.now) steps.now) }
{
    let script = &job.typed;
    let (rows, lost) = read_maps(alloc, script.maps.as_slice(), closed)?;
    output_of_run(alloc, form, script, steps, rows.as_slice(), lost.as_slice())
}

/// Runs a job with each CPU on a thread of its own, each body by the code that its program is: `BEGIN`, then all CPUs
/// side by side, each with its agenda, and then `END`. Each program is decoded once.
///
/// The steps are an interleaving of the script over the recording, in the order of their stamps (`replayed`): any one
/// that the threads took. The text is what they print in the form (`printed`), read of the objects once all locks are
/// closed. The instructions are those that the codes of the programs take under the replies in the steps
/// (`instructions`). The gate is told of each turn while it is held. Where no thread can be started, the caller runs a
/// CPU itself.
///
/// # Errors
///
/// [`Memory`] is the one error, also where a stamp or a count would not fit.
pub fn run_threads<G: Gate + Sync, R: Threads + Wait + Sync>(
    rt: &R,
    alloc: Global,
    form: Form,
    job: &Job,
    gate: &G,
) -> Result<Work, Memory>
    requires job { IsJob job.now.typed job.now.attached job.now.recording }
    requires programs { KeepScript job.now.typed job.now.programs }
    ensures replayed { let p = replay_of job.now.typed job.now.attached job.now.recording in IfOk result (λ work. IsReplayed p work.steps) }
    ensures printed { let p = replay_of job.now.typed job.now.attached job.now.recording in IfOk result (λ work.
        work.text ≡ output_of form job.now.typed (cpus_of p) work.steps) }
    ensures instructions { IfOk result (λ work. (codes : List (List Insn)) → AreCodesOf job.now.programs codes →
        work.instructions ≡ instructions_of (code_replay job.now.typed codes job.now.attached job.now.recording) work.steps) }
{
    code_means_walks();
    codes_take_few();
    job_is_held(job);
    let codes = codes_of(alloc, job.programs.as_slice())?;
    let (closed, steps, instructions) = make_steps(rt, alloc, job, codes.as_slice(), gate)?;
    steps.replies_are_held();
    let text = output_of(alloc, form, job, &closed, &steps)?;
    Ok(Work {
        steps,
        text,
        instructions,
    })
}
