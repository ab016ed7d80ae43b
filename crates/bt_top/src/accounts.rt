// The orders on accounts.
ghost use Rattle.std.specs.Prelude.{◌≡◌, ◌≢◌, Err, IfOk, OnOk};
ghost use Rattle.bt_core.specs.Want.{out_of_memory};
ghost use Rattle.bt_meaning.specs.Jobs.{IsJob};
ghost use Rattle.code_runs.specs.Programs.{KeepScript};
ghost use Rattle.account_format.specs.declared.error.AccountError.TheVariants as wrong;
ghost use Rattle.bt_top.specs.Outcomes.{account_with, IsOutcomeOfAccount, IsOutcomeOfVerify, verified_line, verify_outcome};

use crate::outcome::Outcome;
use crate::work::{programs_of, run};
use account_check::verify::verify;
use account_format::error::AccountError;
use account_format::writing::write_account;
use bt_core::items::Items;
use bt_core::memory::Memory;
use itoa::Buffer;
use run_output::form::Form;
use run_output::job::{Job, Work};
use std::alloc::Global;
use std::sync::Wait;
use std::thread::Threads;
use top_refusals::refusal::Denial;
use turn_lock::gate::Gate;

/// The work of a job, and the account of its steps.
fn accounted<G: Gate + Sync, R: Threads + Wait + Sync>(
    rt: &R,
    alloc: Global,
    serial: bool,
    job: &Job,
    gate: &G,
) -> Result<(Work, Items<u8>), Memory>
    requires job { IsJob job.now.typed job.now.attached job.now.recording }
    requires programs { KeepScript job.now.typed job.now.programs }
    ensures { IfOk result (λ done. IsOutcomeOfAccount serial job.now (account_with job.now done.0 done.1)) }
{
    let work = run(rt, alloc, Form::Text, serial, job, gate)?;
    let account = write_account(alloc, &work.steps, work.text.as_slice())?;
    Ok((work, Items::of(account)))
}

/// Runs a job. In place of what it prints stands the account of its steps.
pub(crate) fn account_outcome<G: Gate + Sync, R: Threads + Wait + Sync>(
    rt: &R,
    alloc: Global,
    serial: bool,
    job: Job,
    gate: &G,
) -> Result<Outcome, Memory>
    requires job { IsJob job.typed job.attached job.recording }
    requires programs { KeepScript job.typed job.programs }
    ensures { IfOk result (IsOutcomeOfAccount serial job) }
{
    let (work, rest) = accounted(rt, alloc, serial, &job, gate)?;
    Ok(Outcome {
        work: Some(work),
        programs: programs_of(job),
        refused: None,
        prints: false,
        rest,
    })
}

/// The line that tells how many steps an account has that is true.
fn verified_line(alloc: Global, steps: usize) -> Result<Items<u8>, Memory>
    ensures { IfOk result (λ line. line ≡ verified_line steps) }
{
    let mut line = Vec::new(alloc);
    let mut buffer = Buffer::new();
    line.extend_from_slice(b"verified: ")?;
    line.extend_from_slice(buffer.format(steps as u64).as_bytes())?;
    line.extend_from_slice(b" steps\n")?;
    Ok(Items::of(line))
}

/// Checks an account of a run of this job.
pub(crate) fn verify_outcome(alloc: Global, job: &Job, account: &[u8]) -> Result<Outcome, Memory>
    requires { IsJob job.now.typed job.now.attached job.now.recording }
    ensures { IfOk result (IsOutcomeOfVerify job.now account.now) }
{
    match verify(alloc, &job.recording, &job.attached, &job.typed, account) {
        Ok(steps) => Ok(Outcome {
            work: None,
            programs: Items::new(alloc),
            refused: None,
            prints: true,
            rest: verified_line(alloc, steps.len())?,
        }),
        Err(error) => denied_outcome(alloc, error),
    }
}

/// What a check of an account comes to that is not true, for this reason.
fn denied_outcome(alloc: Global, error: AccountError) -> Result<Outcome, Memory>
    ensures known { OnOk result (error ≢ wrong.Memory out_of_memory) }
    ensures outcome { IfOk result (λ outcome. outcome ≡ verify_outcome (Err error)) }
{
    match error {
        AccountError::Memory(memory) => Err(memory),
        error => Ok(Outcome {
            work: None,
            programs: Items::new(alloc),
            refused: Some(Denial::Account(error)),
            prints: true,
            rest: Items::new(alloc),
        }),
    }
}
