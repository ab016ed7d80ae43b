// The three sets of locks of a run.
ghost use Rattle.std.specs.Prelude.{◌≡◌, ◌+◌, ◌<◌, ◌^◌, All, length, IfOk};
ghost use Rattle.bt_core.specs.Kinds.{IsFineDecl};
ghost use Rattle.turn_lock.specs.History.{Each};
ghost use Rattle.run_output.specs.Jobs.{cpus_in};
ghost use Rattle.thread_actors.specs.Turns.{AreUnused};
ghost use Rattle.thread_run.specs.Sets.{AreFor, AreAllTurns};

use bt_core::memory::Memory;
use cpu_worker::world::WorkerTurns;
use percpu_tables::tables::Tables;
use run_output::job::Job;
use shared_maps::maps::SharedMaps;
use side_locks::sides::SideLocks;
use std::alloc::Global;
use thread_actors::turns::joined;

/// The locks round all objects of a run.
#[derive(Drop)]
pub(crate) struct Sets {
    pub(crate) maps: SharedMaps,
    pub(crate) tables: Tables,
    pub(crate) sides: SideLocks,
}

/// The sets of a job's objects, at which no step was made, and the turns of its CPUs and of the main actor at them.
pub(crate) fn new_sets(alloc: Global, job: &Job) -> Result<(Sets, Vec<WorkerTurns>), Memory>
    requires fine { All IsFineDecl job.now.typed.maps }
    requires some_cpus { 0 < cpus_in job.now }
    requires few_cpus { cpus_in job.now + 1 < 2 ^ 32 }
    requires few_ticks { length job.now.attached.ticks < 2 ^ 32 }
    ensures sets { IfOk result (λ r. AreFor job.now r.0) }
    ensures turns { IfOk result (λ r. AreAllTurns r.0 r.1.items) }
    ensures unused { IfOk result (λ r. Each AreUnused r.1.items) }
{
    let cpus = job.recording.cpus.len() as u32;
    let ticks = job.attached.ticks.len() as u32;
    let (maps, map_turns) = SharedMaps::new(alloc, &job.typed.maps, cpus + 1)?;
    let (tables, table_turns) = Tables::new(alloc, &job.typed.maps, cpus + 1)?;
    let (sides, side_turns) = SideLocks::new(alloc, cpus, ticks)?;
    let turns = joined(alloc, map_turns, table_turns, side_turns)?;
    let sets = Sets {
        maps,
        tables,
        sides,
    };
    Ok((sets, turns))
}
