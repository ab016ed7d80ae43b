// The run on threads, up to its list of steps.
ghost use Rattle.std.specs.Prelude.{IfOk};
ghost use Rattle.std.specs.List.{AllByRecursion};
ghost use Rattle.code_runs.specs.Coding.{CanRunCode};
ghost use Rattle.run_output.specs.Jobs.{plans_by, CanRunAll};
ghost use Rattle.thread_run.specs.Made.{IsMade};

use crate::bodies::all_bodies;
use crate::closed::closed_of;
use crate::sets::{Sets, new_sets};
use bpf_interp::code::Code;
use bt_core::memory::Memory;
use cpu_worker::world::SharedWorld;
use run_objects::closed::Closed;
use run_output::job::Job;
use std::alloc::Global;
use std::sync::Wait;
use std::thread::Threads;
use thread_actors::actors::run_actors;
use thread_actors::tasks::Gathered;
use thread_actors::turns::parted;
use turn_lock::gate::Gate;
use weave::weave::weave;
use weave::woven::Woven;

/// Runs a job, each CPU on a thread of its own, each body by its code. Gives the closed objects, the woven steps, and how many
/// instructions were executed.
pub(crate) fn make_steps<G: Gate + Sync, R: Threads + Wait + Sync>(
    rt: &R,
    alloc: Global,
    job: &Job,
    codes: &[Code],
    gate: &G,
) -> Result<(Closed, Woven, u64), Memory>
    requires can { CanRunAll job.now (plans_by job.now codes.now) }
    requires can_run { AllByRecursion CanRunCode codes.now }
    ensures { IfOk result (λ made. IsMade job.now (plans_by job.now codes.now) made.0 made.1 made.2) }
{
    let bodies = all_bodies(alloc, job, codes)?;
    let (sets, turns) = new_sets(alloc, job)?;
    let world = SharedWorld {
        recording: &job.recording,
        attached: &job.attached,
        typed: &job.typed,
        maps: &sets.maps,
        tables: &sets.tables,
        sides: &sets.sides,
    };
    let all = run_actors(rt, alloc, &world, gate, bodies, turns)?;
    let Gathered {
        turns,
        traces,
        instructions,
    } = all;
    let (map_turns, table_turns, side_turns) = parted(alloc, turns)?;
    let Sets {
        maps,
        tables,
        sides,
    } = sets;
    let maps = maps.close(alloc, map_turns)?;
    let tables = tables.close(alloc, table_turns)?;
    let _sides = sides.close(alloc, side_turns)?;
    let closed = closed_of(alloc, job.typed.maps.as_slice(), maps, tables)?;
    let steps = weave(alloc, traces)?;
    Ok((closed, steps, instructions))
}
