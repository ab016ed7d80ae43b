// What each order comes to.
ghost use Rattle.std.specs.Prelude.{◌≡◌, ◌≤◌, length, IfOk};
ghost use Rattle.bt_meaning.specs.Jobs.{IsJob};
ghost use Rattle.bt_words.specs.Words.{HasBounds};
ghost use Rattle.code_runs.specs.Programs.{KeepScript};
ghost use Rattle.top_jobs.specs.Doing.{ComesOfFiles, refusal_in};
ghost use Rattle.top_jobs.specs.FailedNames.{FailsNamed};
ghost use Rattle.top_jobs.specs.Jobs.{IsJobFor};
ghost use Rattle.top_refusals.specs.Orders.{files_of, on_account, on_script};
ghost use Rattle.top_jobs.specs.Reads.{shelf_use};
ghost use Rattle.bt_top.specs.Outcomes.{form_of, ComesTo, IsOutcomeOfRun, IsOutcomeOfVerify, IsOutcomeOfVet, check_outcome, code_outcome, instructions_line, run_outcome, stats_line};
ghost use Rattle.top_jobs.specs.Listings.{script_listing};
ghost use Rattle.top_jobs.specs.Vetting.{IsVerdict};

use crate::accounts::{account_outcome, verify_outcome};
use crate::made::{big_outcome, gen_outcome};
use crate::outcome::Outcome;
use crate::work::{programs_of, run};
use bt_core::items::Items;
use bt_core::memory::Memory;
use bt_io::shelf::Shelf;
use bt_words::order::{FileName, Order};
use itoa::Buffer;
use run_output::form::Form;
use run_output::job::{Job, Work};
use std::alloc::Global;
use std::sync::Wait;
use std::thread::Threads;
use top_jobs::files::{AccountJob, read_account_job, read_job, read_job_on_threads};
use top_jobs::listing::script_listing;
use top_jobs::vetting::{Verdict, vet_programs};
use top_refusals::refusal::{Denial, Refusal};
use turn_lock::gate::Gate;

/// The form that is asked for: JSON lines, or text.
fn form_of(json: bool) -> Form
    ensures { result ≡ form_of json }
{
    if json { Form::Json } else { Form::Text }
}

/// The line of instructions behind a text.
fn text_line(alloc: Global, instructions: u64) -> Result<Vec<u8>, Memory>
    ensures { IfOk result (λ line. line.items ≡ instructions_line Form.Text instructions) }
{
    let mut line = Vec::new(alloc);
    let mut buffer = Buffer::new();
    line.extend_from_slice(b"instructions: ")?;
    line.extend_from_slice(buffer.format(instructions).as_bytes())?;
    line.extend_from_slice(b"\n")?;
    Ok(line)
}

/// The line of instructions in a form.
fn instructions_line(alloc: Global, form: Form, instructions: u64) -> Result<Vec<u8>, Memory>
    ensures { IfOk result (λ line. line.items ≡ instructions_line form instructions) }
{
    match form {
        Form::Text => text_line(alloc, instructions),
        Form::Json => json_out::ends::json_stats_line(alloc, instructions),
    }
}

/// The line of instructions in a form, where it is asked for.
fn stats_line(
    alloc: Global,
    form: Form,
    stats: bool,
    instructions: u64,
) -> Result<Items<u8>, Memory>
    ensures { IfOk result (λ line. line ≡ stats_line form stats instructions) }
{
    if !stats {
        return Ok(Items::new(alloc));
    }
    let line = instructions_line(alloc, form, instructions)?;
    Ok(Items::of(line))
}

/// The work of a job, and the line of instructions behind its text, where it is asked for.
fn ran<G: Gate + Sync, R: Threads + Wait + Sync>(
    rt: &R,
    alloc: Global,
    form: Form,
    serial: bool,
    stats: bool,
    job: &Job,
    gate: &G,
) -> Result<(Work, Items<u8>), Memory>
    requires job { IsJob job.now.typed job.now.attached job.now.recording }
    requires programs { KeepScript job.now.typed job.now.programs }
    ensures { IfOk result (λ done. IsOutcomeOfRun form serial job.now (λ work. stats_line form stats work.instructions)
        (run_outcome job.now done.0 done.1)) }
{
    let work = run(rt, alloc, form, serial, job, gate)?;
    let rest = stats_line(alloc, form, stats, work.instructions)?;
    Ok((work, rest))
}

/// Runs a job. What it prints comes in the form, and so does the line of instructions behind it, where it is asked for.
fn run_outcome<G: Gate + Sync, R: Threads + Wait + Sync>(
    rt: &R,
    alloc: Global,
    form: Form,
    serial: bool,
    stats: bool,
    job: Job,
    gate: &G,
) -> Result<Outcome, Memory>
    requires job { IsJob job.typed job.attached job.recording }
    requires programs { KeepScript job.typed job.programs }
    ensures { IfOk result (IsOutcomeOfRun form serial job (λ work. stats_line form stats work.instructions)) }
{
    let (work, rest) = ran(rt, alloc, form, serial, stats, &job, gate)?;
    Ok(Outcome {
        work: Some(work),
        programs: programs_of(job),
        refused: None,
        prints: true,
        rest,
    })
}

/// Tells that nothing is refused.
fn check_outcome(alloc: Global) -> Result<Outcome, Memory>
    ensures { IfOk result (λ outcome. outcome ≡ check_outcome) }
{
    Ok(Outcome {
        work: None,
        programs: Items::new(alloc),
        refused: None,
        prints: true,
        rest: Items::from_slice(alloc, b"ok\n")?,
    })
}

/// The listing of the programs of a job.
fn listed(alloc: Global, job: &Job) -> Result<Items<u8>, Memory>
    requires { KeepScript job.now.typed job.now.programs }
    ensures { IfOk result (λ rest. rest ≡ script_listing job.now.recording.formats job.now.attached.bodies job.now.programs) }
{
    let formats = job.recording.formats.as_slice();
    let bodies = job.attached.bodies.as_slice();
    script_listing(alloc, formats, bodies, job.programs.as_slice())
}

/// Lists the programs of a job.
fn code_outcome(alloc: Global, job: Job) -> Result<Outcome, Memory>
    requires { KeepScript job.typed job.programs }
    ensures { IfOk result (λ outcome. outcome ≡ code_outcome job) }
{
    let rest = listed(alloc, &job)?;
    Ok(Outcome {
        work: None,
        programs: programs_of(job),
        refused: None,
        prints: true,
        rest,
    })
}

/// What a check of the programs of a job says.
fn verdict_on(alloc: Global, job: &Job) -> Result<Verdict, Memory>
    requires programs { KeepScript job.now.typed job.now.programs }
    requires named { length job.now.typed.bodies ≤ length job.now.attached.bodies }
    ensures { IfOk result (IsVerdict job.now.recording.formats job.now.attached.bodies job.now.typed job.now.programs) }
{
    let formats = job.recording.formats.as_slice();
    let ids = job.attached.bodies.as_slice();
    let programs = job.programs.as_slice();
    vet_programs(alloc, formats, ids, &job.typed, programs)
}

/// Checks the programs of a job.
fn vet_outcome(alloc: Global, job: Job) -> Result<Outcome, Memory>
    requires programs { KeepScript job.typed job.programs }
    requires named { length job.typed.bodies ≤ length job.attached.bodies }
    ensures { IfOk result (IsOutcomeOfVet job) }
{
    let verdict = verdict_on(alloc, &job)?;
    let programs = programs_of(job);
    match verdict {
        Verdict::Accepted(lines) => Ok(Outcome {
            work: None,
            programs,
            refused: None,
            prints: true,
            rest: lines,
        }),
        Verdict::Refused(why) => Ok(Outcome {
            work: None,
            programs,
            refused: Some(Denial::Code(why)),
            prints: true,
            rest: Items::new(alloc),
        }),
    }
}

/// Reads a script and a recording, on one thread if that is asked for, and answers what they ask for.
fn job_of<S: Shelf, R: Threads + Sync>(
    rt: &R,
    alloc: Global,
    serial: bool,
    script: &str,
    recording: &str,
    shelf: &mut S,
) -> Result<Job, Refusal>
    ensures can_run { IfOk result (λ job. IsJob job.typed job.attached job.recording) }
    ensures performs { ComesOfFiles (on_script script.now recording.now) (IsJobFor (on_script script.now recording.now))
        (shelf_use S.held S.faults S.asked shelf.old shelf.new) result }
    ensures fault_named { FailsNamed (on_script script.now recording.now) (refusal_in result) (S.failed shelf.old) (S.failed shelf.new) }
{
    if serial {
        return read_job(alloc, script, recording, shelf);
    }
    read_job_on_threads(rt, alloc, script, recording, shelf)
}

/// Reads a script and a recording, and runs what they ask for.
fn run_files<S: Shelf, G: Gate + Sync, R: Threads + Wait + Sync>(
    rt: &R,
    alloc: Global,
    serial: bool,
    stats: bool,
    json: bool,
    script: &FileName,
    recording: &FileName,
    shelf: &mut S,
    gate: &G,
) -> Result<Outcome, Refusal>
    ensures performs { ComesOfFiles (on_script script.now recording.now) (ComesTo (Order.Run serial stats json script.now recording.now))
        (shelf_use S.held S.faults S.asked shelf.old shelf.new) result }
    ensures fault_named { FailsNamed (on_script script.now recording.now) (refusal_in result) (S.failed shelf.old) (S.failed shelf.new) }
{
    let job = job_of(
        rt,
        alloc,
        serial,
        script.as_str(),
        recording.as_str(),
        shelf,
    )?;
    Ok(run_outcome(rt, alloc, form_of(json), serial, stats, job, gate)?)
}

/// Reads a script and a recording, and tells that nothing of them is refused.
fn check_files<S: Shelf>(
    alloc: Global,
    script: &FileName,
    recording: &FileName,
    shelf: &mut S,
) -> Result<Outcome, Refusal>
    ensures performs { ComesOfFiles (on_script script.now recording.now) (ComesTo (Order.Check script.now recording.now))
        (shelf_use S.held S.faults S.asked shelf.old shelf.new) result }
    ensures fault_named { FailsNamed (on_script script.now recording.now) (refusal_in result) (S.failed shelf.old) (S.failed shelf.new) }
{
    let job = read_job(alloc, script.as_str(), recording.as_str(), shelf)?;
    drop(job);
    Ok(check_outcome(alloc)?)
}

/// Reads a script and a recording, and lists the programs of what they ask for.
fn code_files<S: Shelf>(
    alloc: Global,
    script: &FileName,
    recording: &FileName,
    shelf: &mut S,
) -> Result<Outcome, Refusal>
    ensures performs { ComesOfFiles (on_script script.now recording.now) (ComesTo (Order.Code script.now recording.now))
        (shelf_use S.held S.faults S.asked shelf.old shelf.new) result }
    ensures fault_named { FailsNamed (on_script script.now recording.now) (refusal_in result) (S.failed shelf.old) (S.failed shelf.new) }
{
    let job = read_job(alloc, script.as_str(), recording.as_str(), shelf)?;
    Ok(code_outcome(alloc, job)?)
}

/// Reads a script and a recording, and checks the programs of what they ask for.
fn vet_files<S: Shelf>(
    alloc: Global,
    script: &FileName,
    recording: &FileName,
    shelf: &mut S,
) -> Result<Outcome, Refusal>
    ensures performs { ComesOfFiles (on_script script.now recording.now) (ComesTo (Order.Vet script.now recording.now))
        (shelf_use S.held S.faults S.asked shelf.old shelf.new) result }
    ensures fault_named { FailsNamed (on_script script.now recording.now) (refusal_in result) (S.failed shelf.old) (S.failed shelf.new) }
{
    let job = read_job(alloc, script.as_str(), recording.as_str(), shelf)?;
    Ok(vet_outcome(alloc, job)?)
}

/// Reads a script and a recording, and runs what they ask for. In place of what it prints stands the account of its steps.
fn account_files<S: Shelf, G: Gate + Sync, R: Threads + Wait + Sync>(
    rt: &R,
    alloc: Global,
    serial: bool,
    script: &FileName,
    recording: &FileName,
    shelf: &mut S,
    gate: &G,
) -> Result<Outcome, Refusal>
    ensures performs { ComesOfFiles (on_script script.now recording.now) (ComesTo (Order.Account serial script.now recording.now))
        (shelf_use S.held S.faults S.asked shelf.old shelf.new) result }
    ensures fault_named { FailsNamed (on_script script.now recording.now) (refusal_in result) (S.failed shelf.old) (S.failed shelf.new) }
{
    let job = job_of(
        rt,
        alloc,
        serial,
        script.as_str(),
        recording.as_str(),
        shelf,
    )?;
    Ok(account_outcome(rt, alloc, serial, job, gate)?)
}

/// Checks an account of a run of the job that stands beside it.
fn verified(alloc: Global, both: AccountJob) -> Result<Outcome, Memory>
    requires { IsJob both.job.typed both.job.attached both.job.recording }
    ensures { IfOk result (IsOutcomeOfVerify both.job both.account.items) }
{
    let outcome = verify_outcome(alloc, &both.job, both.account.as_slice());
    drop(both);
    outcome
}

/// Reads a script, a recording and an account, and checks the account.
fn verify_files<S: Shelf>(
    alloc: Global,
    script: &FileName,
    recording: &FileName,
    account: &FileName,
    shelf: &mut S,
) -> Result<Outcome, Refusal>
    ensures performs { ComesOfFiles (on_account script.now recording.now account.now) (ComesTo (Order.Verify script.now recording.now account.now))
        (shelf_use S.held S.faults S.asked shelf.old shelf.new) result }
    ensures fault_named { FailsNamed (on_account script.now recording.now account.now) (refusal_in result) (S.failed shelf.old) (S.failed shelf.new) }
{
    let both = read_account_job(
        alloc,
        script.as_str(),
        recording.as_str(),
        account.as_str(),
        shelf,
    )?;
    Ok(verified(alloc, both)?)
}

/// What an order comes to: reads its files, and does all but its writing.
pub(crate) fn outcome_of<S: Shelf, G: Gate + Sync, R: Threads + Wait + Sync>(
    rt: &R,
    alloc: Global,
    order: &Order,
    shelf: &mut S,
    gate: &G,
) -> Result<Outcome, Refusal>
    requires { HasBounds order.now }
    ensures performs { ComesOfFiles (files_of order.now) (ComesTo order.now) (shelf_use S.held S.faults S.asked shelf.old shelf.new) result }
    ensures fault_named { FailsNamed (files_of order.now) (refusal_in result) (S.failed shelf.old) (S.failed shelf.new) }
{
    match order {
        Order::Run {
            serial,
            stats,
            json,
            script,
            recording,
        } => run_files(
            rt, alloc, *serial, *stats, *json, script, recording, shelf, gate,
        ),
        Order::Check { script, recording } => check_files(alloc, script, recording, shelf),
        Order::Code { script, recording } => code_files(alloc, script, recording, shelf),
        Order::Vet { script, recording } => vet_files(alloc, script, recording, shelf),
        Order::Account {
            serial,
            script,
            recording,
        } => account_files(rt, alloc, *serial, script, recording, shelf, gate),
        Order::Verify {
            script,
            recording,
            account,
        } => verify_files(alloc, script, recording, account, shelf),
        Order::Gen { x, n } => Ok(gen_outcome(alloc, *x, *n)?),
        Order::Big { x, n } => big_outcome(rt, alloc, *x, *n, gate),
    }
}
