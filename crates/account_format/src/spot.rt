// The maps, parts and tables that an entry names, at the front of the bytes.
ghost use Rattle.std.specs.Prelude.{◌≡◌, IfOk};
ghost use Rattle.std.specs.Option.{option_map};
ghost use Rattle.account_format.specs.Reading.{held_shape, is_aggregation, map_at, shared_map_at, table_map_at, part_at, table_at, keyed_at};

use crate::number::u32_at;
use crate::value::key_at;
use bt_core::key::Key;
use bt_core::map::{MapDecl, MapId, MapKind, Shape};
use bt_core::memory::Memory;
use map_ops::parts::is_part_number;
use std::alloc::Global;

/// The shape of what a map of this kind holds under a key, where it is no aggregation.
fn held_shape(kind: MapKind) -> Option<Shape>
    ensures { result ≡ held_shape kind }
{
    match kind {
        MapKind::Ints => Some(Shape::Int),
        MapKind::Strs => Some(Shape::Str),
        MapKind::Aggs(_) => None,
    }
}

/// Whether a map of this kind gathers numbers.
fn is_aggregation(kind: MapKind) -> bool
    ensures { result ≡ is_aggregation kind }
{
    match kind {
        MapKind::Ints | MapKind::Strs => false,
        MapKind::Aggs(_) => true,
    }
}

/// A map that is there, with its declaration, and the bytes after its number.
#[tactic(auto, unfolding(crate::specs::Reading::map_at))]
fn map_at<'m, 'b>(maps: &'m [MapDecl], bytes: &'b [u8]) -> Option<((MapId, &'m MapDecl), &'b [u8])>
    ensures { option_map (λ map. ((map.0.0, map.0.1.now), map.1.now)) result ≡ map_at maps.now bytes.now }
{
    let Some((number, rest)) = u32_at(bytes) else {
        return None;
    };
    let Some(decl) = maps.get(number as usize) else {
        return None;
    };
    Some(((MapId(number), decl), rest))
}

/// A map that all actors share, with the shape of what it holds, and the bytes after its number.
#[tactic(auto, unfolding(crate::specs::Reading::shared_map_at))]
fn shared_map_at<'m, 'b>(
    maps: &'m [MapDecl],
    bytes: &'b [u8],
) -> Option<((MapId, (&'m MapDecl, Shape)), &'b [u8])>
    ensures { option_map (λ map. ((map.0.0, (map.0.1.0.now, map.0.1.1)), map.1.now)) result ≡ shared_map_at maps.now bytes.now }
{
    let Some(((map, decl), rest)) = map_at(maps, bytes) else {
        return None;
    };
    let Some(shape) = held_shape(decl.kind) else {
        return None;
    };
    Some(((map, (decl, shape)), rest))
}

/// A map that gathers numbers, and the bytes after its number.
#[tactic(auto, unfolding(crate::specs::Reading::table_map_at))]
pub(crate) fn table_map_at<'m, 'b>(
    maps: &'m [MapDecl],
    bytes: &'b [u8],
) -> Option<((MapId, &'m MapDecl), &'b [u8])>
    ensures { option_map (λ map. ((map.0.0, map.0.1.now), map.1.now)) result ≡ table_map_at maps.now bytes.now }
{
    let Some(((map, decl), rest)) = map_at(maps, bytes) else {
        return None;
    };
    if is_aggregation(decl.kind) {
        Some(((map, decl), rest))
    } else {
        None
    }
}

/// A part of a shared map, and the bytes after it.
#[tactic(auto, unfolding(crate::specs::Reading::part_at))]
pub(crate) fn part_at<'b>(maps: &[MapDecl], bytes: &'b [u8]) -> Option<((MapId, u32), &'b [u8])>
    ensures { option_map (λ found. (found.0, found.1.now)) result ≡ part_at maps.now bytes.now }
{
    let Some(((map, _), rest)) = shared_map_at(maps, bytes) else {
        return None;
    };
    let Some((part, rest)) = u32_at(rest) else {
        return None;
    };
    if is_part_number(part) {
        Some(((map, part), rest))
    } else {
        None
    }
}

/// A map that gathers numbers with the table of one of so many actors, and the bytes after them.
#[tactic(auto, unfolding(crate::specs::Reading::table_at))]
pub(crate) fn table_at<'b>(
    maps: &[MapDecl],
    actors: u32,
    bytes: &'b [u8],
) -> Option<((MapId, u32), &'b [u8])>
    ensures { option_map (λ found. (found.0, found.1.now)) result ≡ table_at maps.now actors bytes.now }
{
    let Some(((map, _), rest)) = table_map_at(maps, bytes) else {
        return None;
    };
    let Some((table, rest)) = u32_at(rest) else {
        return None;
    };
    if table < actors {
        Some(((map, table), rest))
    } else {
        None
    }
}

/// A shared map with the shape of what it holds and a key of it, and the bytes after the key. [`Memory`] where there is no room for the key.
#[tactic(auto, unfolding(crate::specs::Reading::keyed_at))]
pub(crate) fn keyed_at<'b>(
    alloc: Global,
    maps: &[MapDecl],
    bytes: &'b [u8],
) -> Result<Option<((MapId, (Shape, Key)), &'b [u8])>, Memory>
    ensures { IfOk result (λ read. option_map (λ found. (found.0, found.1.now)) read ≡ keyed_at maps.now bytes.now) }
{
    let Some(((map, (decl, shape)), rest)) = shared_map_at(maps, bytes) else {
        return Ok(None);
    };
    let Some((key, rest)) = key_at(alloc, decl.key_shape.as_slice(), rest)? else {
        return Ok(None);
    };
    Ok(Some(((map, (shape, key)), rest)))
}
