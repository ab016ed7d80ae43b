// What all actors of a run share, and the turns of one of them.
ghost use Rattle.std.specs.Prelude.{◌≡◌, ◌+◌, length};
ghost use Rattle.percpu_tables.specs.Tables.{table_actors, table_maps};
ghost use Rattle.shared_maps.specs.Maps.{part_actors, part_maps};
ghost use Rattle.side_locks.specs.Sides.{side_kind};

use bt_ast::attached::Attached;
use percpu_tables::tables::Tables;
use recordings::recording::Recording;
use shared_maps::maps::SharedMaps;
use side_locks::sides::SideLocks;
use side_locks::turns::SideTurns;
use stamped::turns::Turns;
use std::alloc::Global;
use typed_tree::script::Typed;

/// What all actors of a run share, lent to each of them: the recording, what the script is attached to in it, the typed script,
/// and the three sets of locks.
///
/// The sets are those of the script's maps and of the attached ticks, for as many CPUs as were recorded and the main actor.
#[derive(Drop)]
pub struct SharedWorld<'w> {
    pub recording: &'w Recording,
    pub attached: &'w Attached,
    pub typed: &'w Typed,
    pub maps: &'w SharedMaps,
    pub tables: &'w Tables,
    pub sides: &'w SideLocks,
    pub ghost maps_are: { part_maps maps.now ≡ typed.now.maps },
    pub ghost maps_actors: { part_actors maps.now ≡ length recording.now.cpus + 1 },
    pub ghost tables_are: { table_maps tables.now ≡ typed.now.maps },
    pub ghost tables_actors: { table_actors tables.now ≡ length recording.now.cpus + 1 },
    pub ghost sides_are: { side_kind sides.now ≡ record { cpus = length recording.now.cpus; ticks = length attached.now.ticks } },
}

/// The turns of one actor at the three sets of locks.
#[derive(Drop)]
pub struct WorkerTurns {
    pub maps: Turns,
    pub tables: Turns,
    pub sides: SideTurns,
}

impl WorkerTurns {
    ghost use Rattle.cpu_worker.specs.Worlds.{AreBy};

    /// The turns of an actor at no lock at all. It takes no memory.
    pub fn none(alloc: Global, actor: u32) -> WorkerTurns
        ensures { AreBy actor result }
    {
        WorkerTurns {
            maps: Turns::none(alloc, actor),
            tables: Turns::none(alloc, actor),
            sides: SideTurns::none(alloc, actor),
        }
    }
}
