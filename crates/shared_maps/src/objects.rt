// Parts of shared maps that no step was made at yet.
ghost use Rattle.std.specs.Prelude.{◌≡◌, ◌≤◌, ◌^◌, [], ◌++◌, OnErr, OnOk, IfOk};
ghost use Rattle.turn_lock.specs.History.{Each};
ghost use Rattle.stamped.specs.Numbered.{numbered};
ghost use Rattle.step_objects.specs.Objects.{SharedStands};
ghost use Rattle.map_ops.specs.Parts.{part_count};
ghost use Rattle.shared_maps.specs.Parts.{part_at, parts_from, firsts_from, made_for};

use bt_core::map::{MapDecl, MapId};
use bt_core::memory::{Memory, TryCopy};
use bt_core::step::ObjectId;
use map_ops::parts::part_count;
use std::alloc::Global;
use step_objects::shared::SharedPart;

/// Parts of shared maps, each with its identifier.
pub(crate) type Parts = Vec<(ObjectId, SharedPart)>;

// The number of a place, or [`Memory`] past the greatest that fits.
fn number(place: usize) -> Result<u32, Memory>
    ensures same { IfOk result (λ number. number ≡ place) }
    ensures beyond { OnErr result (2 ^ 32 ≤ place) }
{
    Ok(u32::try_from(place)?)
}

// Adds all parts of the map with this number, of which an aggregation has none.
fn push_map(alloc: Global, objects: &mut Parts, number: u32, decl: &MapDecl) -> Result<(), Memory>
    requires stand { Each (λ object. SharedStands object.1 []) objects.old.items }
    ensures parts { OnOk result (made_for objects.new.items ≡
        made_for objects.old.items ++ numbered (part_at number decl.now) 0 (part_count decl.now.kind)) }
    ensures stand { OnOk result (Each (λ object. SharedStands object.1 []) objects.new.items) }
{
    for part in 0..part_count(decl.kind) {
        let map = MapId(number);
        let object = SharedPart::new(alloc, map, decl.try_copy(alloc)?)?;
        objects.push((ObjectId::Shared { map, part }, object))?;
    }
    Ok(())
}

/// The parts of all shared maps, which took no operation yet, map by map; and where the parts of each map
/// begin.
pub(crate) fn new_parts(alloc: Global, maps: &[MapDecl]) -> Result<(Parts, Vec<u32>), Memory>
    ensures parts { IfOk result (λ r. made_for r.0.items ≡ parts_from 0 maps.now) }
    ensures firsts { IfOk result (λ r. r.1.items ≡ firsts_from 0 maps.now) }
    ensures stand { IfOk result (λ r. Each (λ object. SharedStands object.1 []) r.0.items) }
{
    let mut objects = Vec::new(alloc);
    let mut firsts = Vec::with_capacity(alloc, maps.len())?;
    for (place, decl) in maps.iter().enumerate() {
        let first = number(objects.len())?;
        let map = number(place)?;
        firsts.push(first)?;
        push_map(alloc, &mut objects, map, decl)?;
    }
    Ok((objects, firsts))
}
