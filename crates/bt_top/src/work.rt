// The work of a job.
ghost use Rattle.std.specs.Prelude.{◌≡◌, IfOk};
ghost use Rattle.bt_meaning.specs.Jobs.{IsJob};
ghost use Rattle.code_runs.specs.Programs.{KeepScript};
ghost use Rattle.bt_top.specs.Jobs.{IsWorkOf};

use bpf_encode::program::Program;
use bt_core::items::Items;
use bt_core::memory::Memory;
use bt_run::run::run_serial;
use run_output::form::Form;
use run_output::job::{Job, Work};
use std::alloc::Global;
use std::sync::Wait;
use std::thread::Threads;
use thread_run::run::run_threads;
use turn_lock::gate::Gate;

/// The programs of a job. All else of it is let go.
pub(crate) fn programs_of(job: Job) -> Items<Program>
    ensures { result ≡ job.programs }
{
    job.programs
}

/// Runs a job: on one thread, or with each CPU on a thread of its own. What it prints comes in the form.
pub(crate) fn run<G: Gate + Sync, R: Threads + Wait + Sync>(
    rt: &R,
    alloc: Global,
    form: Form,
    serial: bool,
    job: &Job,
    gate: &G,
) -> Result<Work, Memory>
    requires job { IsJob job.now.typed job.now.attached job.now.recording }
    requires programs { KeepScript job.now.typed job.now.programs }
    ensures { IfOk result (IsWorkOf form serial job.now) }
{
    if serial {
        run_serial(alloc, form, job)
    } else {
        run_threads(rt, alloc, form, job, gate)
    }
}
