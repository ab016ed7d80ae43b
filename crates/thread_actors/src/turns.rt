// The turns of all actors at the three sets of locks.
ghost use Rattle.std.specs.Prelude.{◌≡◌, [], ◌∷◌, ◌++◌, map, length, IfOk, OnOk};
ghost use Rattle.thread_actors.specs.Turns.{at_maps, at_tables, at_sides};

use crate::tasks::push_both;
use bt_core::memory::Memory;
use cpu_worker::world::WorkerTurns;
use side_locks::turns::SideTurns;
use stamped::turns::Turns;
use std::alloc::Global;

/// The turns of each actor at all sets, where these are its turns at each of them.
pub fn joined(
    alloc: Global,
    maps: Vec<Turns>,
    tables: Vec<Turns>,
    sides: Vec<SideTurns>,
) -> Result<Vec<WorkerTurns>, Memory>
    requires tables { length tables.items ≡ length maps.items }
    requires sides { length sides.items ≡ length maps.items }
    ensures maps { IfOk result (λ all. map at_maps all.items ≡ maps.items) }
    ensures tables { IfOk result (λ all. map at_tables all.items ≡ tables.items) }
    ensures sides { IfOk result (λ all. map at_sides all.items ≡ sides.items) }
{
    let mut all = Vec::new(alloc);
    for ((maps, tables), sides) in maps.into_iter().zip(tables).zip(sides) {
        all.push(WorkerTurns {
            maps,
            tables,
            sides,
        })?;
    }
    Ok(all)
}

/// Puts one value behind each of three lists.
fn push_each<A: Drop, B: Drop, C: Drop>(
    firsts: &mut Vec<A>,
    seconds: &mut Vec<B>,
    thirds: &mut Vec<C>,
    first: A,
    second: B,
    third: C,
) -> Result<(), Memory>
    ensures firsts { OnOk result (firsts.new.items ≡ firsts.old.items ++ first ∷ []) }
    ensures seconds { OnOk result (seconds.new.items ≡ seconds.old.items ++ second ∷ []) }
    ensures thirds { OnOk result (thirds.new.items ≡ thirds.old.items ++ third ∷ []) }
{
    firsts.push(first)?;
    push_both(seconds, thirds, second, third)
}

/// Puts the turns of one more actor at each set behind those that there are.
fn add_each(
    turns: WorkerTurns,
    at_maps: &mut Vec<Turns>,
    at_tables: &mut Vec<Turns>,
    at_sides: &mut Vec<SideTurns>,
) -> Result<(), Memory>
    ensures maps { OnOk result (at_maps.new.items ≡ at_maps.old.items ++ turns.maps ∷ []) }
    ensures tables { OnOk result (at_tables.new.items ≡ at_tables.old.items ++ turns.tables ∷ []) }
    ensures sides { OnOk result (at_sides.new.items ≡ at_sides.old.items ++ turns.sides ∷ []) }
{
    let WorkerTurns {
        maps,
        tables,
        sides,
    } = turns;
    push_each(at_maps, at_tables, at_sides, maps, tables, sides)
}

/// The turns of each actor, once for each set.
pub fn parted(
    alloc: Global,
    all: Vec<WorkerTurns>,
) -> Result<(Vec<Turns>, Vec<Turns>, Vec<SideTurns>), Memory>
    ensures maps { IfOk result (λ r. r.0.items ≡ map at_maps all.items) }
    ensures tables { IfOk result (λ r. r.1.items ≡ map at_tables all.items) }
    ensures sides { IfOk result (λ r. r.2.items ≡ map at_sides all.items) }
{
    let mut at_maps = Vec::new(alloc);
    let mut at_tables = Vec::new(alloc);
    let mut at_sides = Vec::new(alloc);
    for turns in all {
        add_each(turns, &mut at_maps, &mut at_tables, &mut at_sides)?;
    }
    Ok((at_maps, at_tables, at_sides))
}
