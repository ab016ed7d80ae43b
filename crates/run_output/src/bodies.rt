// The bodies of an actor by their code.
ghost use Rattle.std.specs.Prelude.{◌≡◌, ◌+◌, ◌<◌, ◌≤◌, ◌^◌};
ghost use Rattle.std.specs.List.{AllByRecursion};
ghost use Rattle.code_runs.specs.Coding.{CanRunCode};
ghost use Rattle.code_runs.specs.Running.{plan_of};
ghost use Rattle.run_output.specs.Jobs.{cpus_in, plans_by};

use crate::job::Job;
use bpf_interp::code::Code;
use code_runs::code_bodies::CodeBodies;

/// What runs the bodies of a job's script by these codes, for one of the actors: the CPUs by their places, and the main actor.
pub fn bodies_at<'a>(job: &'a Job, codes: &'a [Code], actor: u32) -> CodeBodies<'a>
    requires few { cpus_in job.now + 1 < 2 ^ 32 }
    requires below { actor ≤ cpus_in job.now }
    requires can_run { AllByRecursion CanRunCode codes.now }
    ensures { plan_of result ≡ plans_by job.now codes.now actor }
{
    let actors = job.recording.cpus.len() as u32 + 1;
    CodeBodies::new(&job.typed, codes, actor, actors)
}
