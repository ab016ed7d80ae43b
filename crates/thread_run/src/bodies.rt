// The bodies of all actors by their code.
ghost use Rattle.std.specs.Prelude.{◌+◌, ◌<◌, ◌^◌, IfOk};
ghost use Rattle.std.specs.List.{AllByRecursion};
ghost use Rattle.code_runs.specs.Coding.{CanRunCode};
ghost use Rattle.code_runs.specs.Running.{plan_of};
ghost use Rattle.run_output.specs.Jobs.{cpus_in, plans_by};
ghost use Rattle.thread_actors.specs.Plans.{HavePlans};

use bpf_interp::code::Code;
use bt_core::memory::Memory;
use code_runs::code_bodies::CodeBodies;
use run_output::bodies::bodies_at;
use run_output::job::Job;
use std::alloc::Global;

/// What runs the bodies of a job's script by these codes, for each actor: the CPUs by their places, and the main actor.
pub(crate) fn all_bodies<'a>(
    alloc: Global,
    job: &'a Job,
    codes: &'a [Code],
) -> Result<Vec<CodeBodies<'a>>, Memory>
    requires few { cpus_in job.now + 1 < 2 ^ 32 }
    requires can_run { AllByRecursion CanRunCode codes.now }
    ensures { IfOk result (λ bodies. HavePlans plan_of (cpus_in job.now + 1) (plans_by job.now codes.now) bodies.items) }
{
    let actors = job.recording.cpus.len() as u32 + 1;
    let mut bodies = Vec::new(alloc);
    for actor in 0..actors {
        bodies.push(bodies_at(job, codes, actor))?;
    }
    Ok(bodies)
}
