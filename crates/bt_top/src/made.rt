// The orders that make their recording.
ghost use Rattle.std.specs.Prelude.{◌≡◌, [], IfOk, IfErr, false, length};
ghost use Rattle.bt_meaning.specs.Jobs.{IsJob};
ghost use Rattle.recordings.specs.Recordings.{IsValidRecording};
ghost use Rattle.rec_gen.specs.Made.{IsMade};
ghost use Rattle.bt_words.specs.declared.order.Order.{Order};
ghost use Rattle.bt_words.specs.Words.{AreBounded};
ghost use Rattle.top_jobs.specs.Jobs.{AsksFor};
ghost use Rattle.bt_top.specs.Jobs.{IsBigJob};
ghost use Rattle.bt_top.specs.Outcomes.{ComesTo, IsOutcomeOfRun, run_outcome, summary_line};
ghost use Rattle.code_runs.specs.Programs.{KeepScript};
ghost use Rattle.run_output.specs.declared.form.Form.TheVariants.{Text};

use crate::outcome::Outcome;
use crate::work::{programs_of, run};
use bt_core::items::Items;
use bt_core::memory::Memory;
use itoa::Buffer;
use rec_format::writing::write_recording;
use rec_gen::generate::generate;
use rec_gen::script::SCRIPT;
use recordings::recording::Recording;
use run_output::form::Form;
use run_output::job::{Job, Work};
use std::alloc::Global;
use std::sync::Wait;
use std::thread::Threads;
use top_jobs::judge::script_job;
use top_refusals::refusal::Refusal;
use turn_lock::gate::Gate;

/// The bytes of the recording of a seed and a count of events.
pub(crate) fn gen_outcome(alloc: Global, x: u32, n: u32) -> Result<Outcome, Memory>
    requires { AreBounded x n }
    ensures { IfOk result (ComesTo (Order.Gen x n) []) }
{
    let recording = generate(alloc, x, n)?;
    let bytes = write_recording(alloc, &recording)?;
    Ok(Outcome {
        work: None,
        programs: Items::new(alloc),
        refused: None,
        prints: true,
        rest: Items::of(bytes),
    })
}

/// What the built-in script asks for over a made recording. Nothing of it is refused.
fn big_script_job(alloc: Global, x: u32, n: u32, recording: Recording) -> Result<Job, Refusal>
    requires made { IsMade x n recording }
    requires valid { IsValidRecording recording }
    ensures same { IfOk result (λ job. job.recording ≡ recording) }
    ensures asks { IfOk result (AsksFor SCRIPT) }
    ensures memory { IfErr result (λ refusal. refusal ≡ Refusal.Memory) }
{
    rec_gen::script_laws::script_is_accepted();
    bt_lexer::laws::one_answer();
    bt_grammar::laws::one_answer();
    top_jobs::laws::scripts_have_one_size();
    script_job(alloc, &SCRIPT, recording)
}

/// What the built-in script asks for over the recording of a seed and a count of events, which can be run.
fn big_job(alloc: Global, x: u32, n: u32) -> Result<Job, Refusal>
    requires { AreBounded x n }
    ensures job { IfOk result (IsBigJob x n) }
    ensures can_run { IfOk result (λ job. IsJob job.typed job.attached job.recording) }
    ensures memory { IfErr result (λ refusal. refusal ≡ Refusal.Memory) }
{
    job_laws::laws::accepted_scripts_are_jobs();
    let recording = generate(alloc, x, n)?;
    big_script_job(alloc, x, n, recording)
}

/// The line that tells how many events and steps there are.
fn summary_line(alloc: Global, events: u32, steps: usize) -> Result<Items<u8>, Memory>
    ensures { IfOk result (λ line. line ≡ summary_line events steps) }
{
    let mut line = Vec::new(alloc);
    let mut buffer = Buffer::new();
    line.extend_from_slice(b"summary: ")?;
    line.extend_from_slice(buffer.format(events).as_bytes())?;
    line.extend_from_slice(b" events, ")?;
    line.extend_from_slice(buffer.format(steps as u64).as_bytes())?;
    line.extend_from_slice(b" steps\n")?;
    Ok(Items::of(line))
}

/// The work of a large run, and the line of its events and steps.
fn summed_up<G: Gate + Sync, R: Threads + Wait + Sync>(
    rt: &R,
    alloc: Global,
    n: u32,
    job: &Job,
    gate: &G,
) -> Result<(Work, Items<u8>), Memory>
    requires job { IsJob job.now.typed job.now.attached job.now.recording }
    requires programs { KeepScript job.now.typed job.now.programs }
    ensures { IfOk result (λ done. IsOutcomeOfRun Text false job.now (λ work. summary_line n (length work.steps))
        (run_outcome job.now done.0 done.1)) }
{
    let work = run(rt, alloc, Form::Text, false, job, gate)?;
    let rest = summary_line(alloc, n, work.steps.len())?;
    Ok((work, rest))
}

/// Runs the built-in script over the recording of a seed and a count of events. Behind its text stands the summary of the run.
pub(crate) fn big_outcome<G: Gate + Sync, R: Threads + Wait + Sync>(
    rt: &R,
    alloc: Global,
    x: u32,
    n: u32,
    gate: &G,
) -> Result<Outcome, Refusal>
    requires { AreBounded x n }
    ensures comes { IfOk result (ComesTo (Order.Big x n) []) }
    ensures memory { IfErr result (λ refusal. refusal ≡ Refusal.Memory) }
{
    let job = big_job(alloc, x, n)?;
    let (work, rest) = summed_up(rt, alloc, n, &job, gate)?;
    Ok(Outcome {
        work: Some(work),
        programs: programs_of(job),
        refused: None,
        prints: true,
        rest,
    })
}
