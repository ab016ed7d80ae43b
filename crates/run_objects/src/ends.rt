// What is printed at the end of a run.
ghost use Rattle.std.specs.Prelude.{◌≡◌, ◌<◌, ◌≤◌, ◌^◌, Some, slice_get, length, All, IfOk, OnErr};
ghost use Rattle.bt_meaning.specs.Prints.{read_of, rows_after, lost_after, of_maps};
ghost use Rattle.run_objects.specs.Closed.{AreClosedAt};
ghost use Rattle.run_objects.specs.Moments.{Moment};

use crate::closed::Closed;
use crate::numbers::number;
use crate::reads::{part_losses, part_replies, table_losses, table_replies};
use bt_core::item::Cell;
use bt_core::items::Items;
use bt_core::key::Key;
use bt_core::map::{MapDecl, MapId, MapKind};
use bt_core::memory::Memory;
use bt_core::step::Reply;
use map_rows::merging::merged;
use std::alloc::Global;

/// What the objects that hold a map reply to who reads it.
fn replies_of(
    alloc: Global,
    closed: &Closed,
    map: MapId,
    decl: &MapDecl,
) -> Result<Vec<Reply>, Memory>
    ghost at: { Moment }
    requires closed { AreClosedAt at closed.now }
    requires declared { slice_get at.world.maps map.0 ≡ Some decl.now }
    ensures { IfOk result (λ replies. replies.items ≡ read_of at.world.maps at.world.cpus decl.now.kind map at.steps) }
{
    match decl.kind {
        MapKind::Aggs(_) => table_replies(alloc, closed.tables.as_slice(), map),
        MapKind::Ints | MapKind::Strs => {
            part_replies(alloc, closed.parts[map.0 as usize].as_slice(), map)
        }
    }
}

/// The rows of a map.
fn rows_of(
    alloc: Global,
    closed: &Closed,
    map: MapId,
    decl: &MapDecl,
) -> Result<Items<(Key, Cell)>, Memory>
    ghost at: { Moment }
    requires closed { AreClosedAt at closed.now }
    requires declared { slice_get at.world.maps map.0 ≡ Some decl.now }
    ensures { IfOk result (λ rows. rows ≡ rows_after at.world.maps at.world.cpus at.steps map decl.now) }
{
    let replies = replies_of(alloc, closed, map, decl)?;
    merged(alloc, decl.kind, replies.as_slice())
}

/// How many updates of a map were lost, by all objects that hold it.
fn lost_of(closed: &Closed, map: MapId, decl: &MapDecl) -> Result<u64, Memory>
    ghost at: { Moment }
    requires closed { AreClosedAt at closed.now }
    requires declared { slice_get at.world.maps map.0 ≡ Some decl.now }
    ensures lost { IfOk result (λ lost. lost ≡ lost_after at.world.maps at.world.cpus at.steps map decl.now) }
    ensures beyond { OnErr result (2 ^ 64 ≤ lost_after at.world.maps at.world.cpus at.steps map decl.now) }
{
    match decl.kind {
        MapKind::Aggs(_) => table_losses(closed.tables.as_slice(), map),
        MapKind::Ints | MapKind::Strs => {
            part_losses(closed.parts[map.0 as usize].as_slice(), map)
        }
    }
}

/// What is to be printed of each map.
fn rows_of_maps(
    alloc: Global,
    maps: &[MapDecl],
    closed: &Closed,
) -> Result<Vec<Items<(Key, Cell)>>, Memory>
    ghost at: { Moment }
    requires closed { AreClosedAt at closed.now }
    requires maps { at.world.maps ≡ maps.now }
    ensures { IfOk result (λ rows. rows.items ≡ of_maps (rows_after at.world.maps at.world.cpus at.steps) 0 maps.now) }
{
    let mut rows = Vec::new(alloc);
    for (map, decl) in maps.iter().enumerate() {
        let map = MapId(number(map)?);
        rows.push(rows_of(alloc, closed, map, decl)?)?;
    }
    Ok(rows)
}

/// How many updates of each map were lost.
fn lost_of_maps(alloc: Global, maps: &[MapDecl], closed: &Closed) -> Result<Vec<u64>, Memory>
    ghost at: { Moment }
    requires closed { AreClosedAt at closed.now }
    requires maps { at.world.maps ≡ maps.now }
    ensures { IfOk result (λ lost. lost.items ≡ of_maps (lost_after at.world.maps at.world.cpus at.steps) 0 maps.now) }
{
    let mut lost = Vec::new(alloc);
    for (map, decl) in maps.iter().enumerate() {
        let map = MapId(number(map)?);
        lost.push(lost_of(closed, map, decl)?)?;
    }
    Ok(lost)
}

/// What is to be printed of each map, and how many of its updates were lost, as the objects of a run that has ended tell it.
///
/// # Errors
///
/// [`Memory`] is the one error, also where a count would not fit.
pub fn read_maps(
    alloc: Global,
    maps: &[MapDecl],
    closed: &Closed,
) -> Result<(Vec<Items<(Key, Cell)>>, Vec<u64>), Memory>
    ghost at: { Moment }
    requires closed { AreClosedAt at closed.now }
    requires maps { at.world.maps ≡ maps.now }
    ensures rows { IfOk result (λ r. r.0.items ≡ of_maps (rows_after at.world.maps at.world.cpus at.steps) 0 maps.now) }
    ensures lost { IfOk result (λ r. r.1.items ≡ of_maps (lost_after at.world.maps at.world.cpus at.steps) 0 maps.now) }
{
    let rows = rows_of_maps(alloc, maps, closed)?;
    let lost = lost_of_maps(alloc, maps, closed)?;
    Ok((rows, lost))
}
