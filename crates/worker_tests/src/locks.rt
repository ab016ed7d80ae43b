// The locks of a run of two CPUs, and the turns of both and of the main actor at them.
ghost use Rattle.std.specs.Prelude.{◌≡◌, ◌<◌, ◌^◌, [], ◌∷◌, All, length, IfOk};
ghost use Rattle.bt_core.specs.Kinds.{IsFineDecl};
ghost use Rattle.cpu_worker.specs.Worlds.{AreTurnsOf};
ghost use Rattle.percpu_tables.specs.Tables.{table_actors, table_maps, AreAllTableTurns};
ghost use Rattle.shared_maps.specs.Maps.{part_actors, part_maps, AreAllPartTurns};
ghost use Rattle.side_locks.specs.Sides.{side_kind, AreAllSideTurns};

use crate::script::Scripted;
use bt_core::memory::Memory;
use cpu_worker::world::WorkerTurns;
use percpu_tables::tables::Tables;
use shared_maps::maps::SharedMaps;
use side_locks::sides::SideLocks;
use side_locks::turns::SideTurns;
use stamped::turns::Turns;
use std::alloc::Global;

/// The locks round all objects of a run.
#[derive(Drop)]
pub struct Locks {
    pub maps: SharedMaps,
    pub tables: Tables,
    pub sides: SideLocks,
}

/// The turns of two CPUs and of the main actor.
#[derive(Drop)]
pub struct AllTurns {
    pub first: WorkerTurns,
    pub second: WorkerTurns,
    pub main: WorkerTurns,
}

/// The three of a list of three.
fn three<T: Drop>(mut list: Vec<T>) -> (T, T, T)
    requires { length list.items ≡ 3 }
    ensures { list.items ≡ result.0 ∷ result.1 ∷ result.2 ∷ [] }
{
    let third = list.remove(2);
    let second = list.remove(1);
    let first = list.remove(0);
    (first, second, third)
}

/// The locks of a script on two CPUs, and the turns of all actors at them, of which none has an entry.
pub fn new_locks(alloc: Global, scripted: &Scripted) -> Result<(Locks, AllTurns), Memory>
    requires two { length scripted.now.recording.cpus ≡ 2 }
    requires fine { All IsFineDecl scripted.now.typed.maps }
    requires few_ticks { length scripted.now.attached.ticks < 2 ^ 32 }
    ensures maps { IfOk result (λ r. part_maps r.0.maps ≡ scripted.now.typed.maps) }
    ensures maps_actors { IfOk result (λ r. part_actors r.0.maps ≡ 3) }
    ensures tables { IfOk result (λ r. table_maps r.0.tables ≡ scripted.now.typed.maps) }
    ensures tables_actors { IfOk result (λ r. table_actors r.0.tables ≡ 3) }
    ensures sides { IfOk result (λ r. side_kind r.0.sides ≡ record { cpus = 2; ticks = length scripted.now.attached.ticks }) }
    ensures first { IfOk result (λ r. AreTurnsOf (record { maps = r.0.maps; tables = r.0.tables; sides = r.0.sides }) 0 r.1.first) }
    ensures second { IfOk result (λ r. AreTurnsOf (record { maps = r.0.maps; tables = r.0.tables; sides = r.0.sides }) 1 r.1.second) }
    ensures main { IfOk result (λ r. AreTurnsOf (record { maps = r.0.maps; tables = r.0.tables; sides = r.0.sides }) 2 r.1.main) }
{
    let ticks = scripted.attached.ticks.len() as u32;
    let (maps, map_turns) = SharedMaps::new(alloc, &scripted.typed.maps, 3)?;
    let (tables, table_turns) = Tables::new(alloc, &scripted.typed.maps, 3)?;
    let (sides, side_turns) = SideLocks::new(alloc, 2, ticks)?;
    let maps_of = three(map_turns);
    let tables_of = three(table_turns);
    let sides_of = three(side_turns);
    let turns = AllTurns {
        first: WorkerTurns {
            maps: maps_of.0,
            tables: tables_of.0,
            sides: sides_of.0,
        },
        second: WorkerTurns {
            maps: maps_of.1,
            tables: tables_of.1,
            sides: sides_of.1,
        },
        main: WorkerTurns {
            maps: maps_of.2,
            tables: tables_of.2,
            sides: sides_of.2,
        },
    };
    let locks = Locks {
        maps,
        tables,
        sides,
    };
    Ok((locks, turns))
}

/// Closes the shared maps with the turns of all actors, and gives how many parts there were.
fn close_maps(
    alloc: Global,
    maps: SharedMaps,
    first: Turns,
    second: Turns,
    main: Turns,
) -> Result<usize, Memory>
    requires { AreAllPartTurns maps (first ∷ second ∷ main ∷ []) }
{
    let turns = vec![in alloc; first, second, main]?;
    Ok(maps.close(alloc, turns)?.len())
}

/// Closes the tables of all actors with their turns, and gives how many there were.
fn close_tables(
    alloc: Global,
    tables: Tables,
    first: Turns,
    second: Turns,
    main: Turns,
) -> Result<usize, Memory>
    requires { AreAllTableTurns tables (first ∷ second ∷ main ∷ []) }
{
    let turns = vec![in alloc; first, second, main]?;
    Ok(tables.close(alloc, turns)?.len())
}

/// Closes the clock and the output with the turns of all actors.
fn close_sides(
    alloc: Global,
    sides: SideLocks,
    first: SideTurns,
    second: SideTurns,
    main: SideTurns,
) -> Result<(), Memory>
    requires { AreAllSideTurns sides (first ∷ second ∷ main ∷ []) }
{
    let turns = vec![in alloc; first, second, main]?;
    let _closed = sides.close(alloc, turns)?;
    Ok(())
}

/// Closes all locks with the turns of all actors, and gives how many parts of shared maps and how many actors' tables there were.
pub fn close(alloc: Global, locks: Locks, turns: AllTurns) -> Result<(usize, usize), Memory>
    requires maps { part_actors locks.maps ≡ 3 }
    requires tables { table_actors locks.tables ≡ 3 }
    requires sides { (side_kind locks.sides).cpus ≡ 2 }
    requires first { AreTurnsOf (record { maps = locks.maps; tables = locks.tables; sides = locks.sides }) 0 turns.first }
    requires second { AreTurnsOf (record { maps = locks.maps; tables = locks.tables; sides = locks.sides }) 1 turns.second }
    requires main { AreTurnsOf (record { maps = locks.maps; tables = locks.tables; sides = locks.sides }) 2 turns.main }
{
    let AllTurns {
        first,
        second,
        main,
    } = turns;
    let maps = close_maps(alloc, locks.maps, first.maps, second.maps, main.maps);
    let tables = close_tables(
        alloc,
        locks.tables,
        first.tables,
        second.tables,
        main.tables,
    );
    close_sides(alloc, locks.sides, first.sides, second.sides, main.sides)?;
    Ok((maps?, tables?))
}
