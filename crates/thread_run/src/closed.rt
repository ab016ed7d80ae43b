// The objects of a run, as their locks give them back.
ghost use Rattle.std.specs.Prelude.{◌≡◌, ◌+◌, List, map, take, drop, IfOk, OnOk};
ghost use Rattle.std.specs.Vec.Iter.{into_iter_items};
ghost use Rattle.bt_core.specs.declared.step.Step.{Step};
ghost use Rattle.map_ops.specs.Parts.{part_count};
ghost use Rattle.shared_maps.specs.Parts.{parts_from};
ghost use Rattle.run_objects.specs.Worlds.{World};
ghost use Rattle.run_objects.specs.Closed.{part_list, MapsStand};
ghost use Rattle.thread_run.specs.Closed.{object_of, parts_by, PartsStand, TablesStand};

use bt_core::map::{MapDecl, MapKind};
use bt_core::memory::Memory;
use map_ops::parts::part_count;
use run_objects::closed::Closed;
use std::alloc::Global;
use std::vec::IntoIter;
use step_objects::cpu::CpuTable;
use step_objects::shared::SharedPart;
use turn_lock::turn::Joined;

/// The objects of this list, without the histories of their locks.
fn objects_of<O: Drop>(alloc: Global, closed: Vec<(O, Joined)>) -> Result<Vec<O>, Memory>
    ensures { IfOk result (λ list. list.items ≡ map object_of closed.items) }
{
    let mut list = Vec::with_capacity(alloc, closed.len())?;
    for (object, _history) in closed {
        list.push(object)?;
    }
    Ok(list)
}

/// The next of these parts, as many as a map of this kind has, or all that are left.
fn next_parts(
    alloc: Global,
    kind: MapKind,
    left: &mut IntoIter<SharedPart>,
) -> Result<Vec<SharedPart>, Memory>
    ensures parts { IfOk result (λ parts. parts.items ≡ take (part_count kind) (into_iter_items left.old)) }
    ensures left { OnOk result (into_iter_items left.new ≡ drop (part_count kind) (into_iter_items left.old)) }
{
    let mut parts = Vec::new(alloc);
    for _ in 0..part_count(kind) {
        match left.next() {
            Some(part) => parts.push(part)?,
            None => {}
        }
    }
    Ok(parts)
}

/// The parts of each map at its number, of the parts of all maps, map by map.
fn by_maps(
    alloc: Global,
    maps: &[MapDecl],
    parts: Vec<SharedPart>,
) -> Result<Vec<Vec<SharedPart>>, Memory>
    ensures { IfOk result (λ all. map part_list all.items ≡ parts_by maps.now parts.items) }
{
    let mut all = Vec::new(alloc);
    let mut left = parts.into_iter();
    for decl in maps {
        all.push(next_parts(alloc, decl.kind, &mut left)?)?;
    }
    Ok(all)
}

/// The objects that hold maps: the parts of all shared maps, map by map, and the tables of each actor, each given with the history of
/// its lock.
pub(crate) fn closed_of(
    alloc: Global,
    maps: &[MapDecl],
    parts: Vec<(SharedPart, Joined)>,
    tables: Vec<(CpuTable, Joined)>,
) -> Result<Closed, Memory>
    ensures { IfOk result (λ closed. (w : World) (steps : List Step) → w.maps ≡ maps.now → PartsStand steps (parts_from 0 w.maps) parts.items →
        TablesStand w.maps steps (w.cpus + 1) tables.items → MapsStand w steps closed) }
{
    let parts = objects_of(alloc, parts)?;
    let parts = by_maps(alloc, maps, parts)?;
    let tables = objects_of(alloc, tables)?;
    Ok(Closed { parts, tables })
}
