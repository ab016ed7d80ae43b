// Mentions that decide what a map holds.
ghost use Rattle.std.specs.Prelude.{◌≡◌, ◌≢◌, true, Err, OnOk, map};
ghost use Rattle.bt_core.specs.declared.map.MapKind.TheVariants.{Ints};
ghost use Rattle.typed_tree.specs.Parts.{made_of, key_shapes};
ghost use Rattle.typed_tree.specs.Scope.{is_fine_kind, kind_of_shape};
ghost use Rattle.expr_types.specs.Known.{decl_in, decides, with_mention};
ghost use Rattle.expr_types.specs.declared.fault.TypeError.TheVariants.{Memory as NoMemory};
ghost use Rattle.expr_types.specs.Judge.{Refuses};
ghost use Rattle.expr_types.specs.Rules.{breaks, has_other_keys, is_agg_in, is_one_too_many, write_breaks};
ghost use Rattle.expr_types.specs.declared.fault.Rule.TheVariants.{OtherKeys, TooManyMaps, WrongType};

use bt_core::beside::beside;
use bt_core::items::Items;
use bt_core::map::{MapKind, Shape};
use bt_core::place::Place;
use expr_types::fault::{Rule, TypeError};
use expr_types::known::Known;
use expr_types::maps::{shapes, write};
use expr_types::rules::{broken, has_other_keys, is_agg, is_one_too_many};
use std::alloc::Global;
use typed_tree::expr::AnyExpr;

/// The kind of a map that holds values of a type.
fn kind_of_shape(shape: Shape) -> MapKind
    ensures kind { result ≡ kind_of_shape shape }
    ensures fine { is_fine_kind result ≡ true }
{
    match shape {
        Shape::Int => MapKind::Ints,
        Shape::Str => MapKind::Strs,
    }
}

/// A mention of a map that decides this kind, with a key of these parts.
///
/// # Errors
///
/// [`Rule::TooManyMaps`], [`Rule::OtherKind`] or [`Rule::OtherKeys`], the first of them, at the place.
/// [`TypeError::Memory`] may come at any mention.
pub(crate) fn write_key(
    alloc: Global,
    known: &mut Known,
    name: &Items<u8>,
    kind: MapKind,
    keys: &Items<AnyExpr>,
    place: Place,
) -> Result<(), TypeError>
    requires { is_fine_kind kind ≡ true }
    ensures refuses { Refuses (write_breaks known.old name.now kind (key_shapes (map made_of keys.now))) place result }
    ensures learned { OnOk result (known.new ≡ decides known.old name.now kind (key_shapes (map made_of keys.now))) }
{
    let shapes = shapes(alloc, keys.as_slice())?;
    write(alloc, known, name, kind, shapes, place)
}

/// A mention of a map that is assigned this value, under a key of these parts.
///
/// # Errors
///
/// As of [`write_key`].
pub(crate) fn write_value(
    alloc: Global,
    known: &mut Known,
    name: &Items<u8>,
    value: &AnyExpr,
    keys: &Items<AnyExpr>,
    place: Place,
) -> Result<(), TypeError>
    ensures refuses { Refuses (write_breaks known.old name.now (kind_of_shape (made_of value.now).shape) (key_shapes (map made_of keys.now))) place result }
    ensures learned { OnOk result (known.new ≡ decides known.old name.now (kind_of_shape (made_of value.now).shape) (key_shapes (map made_of keys.now))) }
{
    let kind = kind_of_shape(value.shape());
    write_key(alloc, known, name, kind, keys, place)
}

/// A mention of a map as a whole.
///
/// # Errors
///
/// [`Rule::TooManyMaps`] at the place. [`TypeError::Memory`] may come at any mention.
pub(crate) fn use_map(
    alloc: Global,
    known: &mut Known,
    name: &Items<u8>,
    place: Place,
) -> Result<(), TypeError>
    ensures refuses { Refuses (breaks (is_one_too_many known.old name.now) TooManyMaps) place result }
    ensures learned { OnOk result (known.new ≡ with_mention known.old name.now) }
{
    if is_one_too_many(known, name.as_slice()) {
        return Err(broken(Rule::TooManyMaps, place));
    }
    known.mention(alloc, name)?;
    Ok(())
}

/// That a map is no aggregation, as far as it is decided.
pub(crate) fn check_shared(known: &Known, name: &Items<u8>, place: Place) -> Result<(), TypeError>
    ensures refuses { Refuses (breaks (is_agg_in (decl_in name.now known.now.decided)) WrongType) place result }
    ensures not_memory { result ≢ Err NoMemory }
{
    if is_agg(known, name.as_slice()) {
        return Err(broken(Rule::WrongType, place));
    }
    Ok(())
}

/// A mention of a map of which a key of these types is deleted, where it has no other keys.
fn mention_keys(
    alloc: Global,
    known: &mut Known,
    name: &Items<u8>,
    shapes: &Items<Shape>,
    place: Place,
) -> Result<(), TypeError>
    ensures refuses { Refuses (breaks (has_other_keys known.old name.now shapes.now) OtherKeys) place result }
    ensures learned { OnOk result (known.new ≡ with_mention known.old name.now) }
{
    if has_other_keys(known, name.as_slice(), shapes.as_slice()) {
        return Err(broken(Rule::OtherKeys, place));
    }
    known.mention(alloc, name)?;
    Ok(())
}

/// A mention of a map of which a key of these parts is deleted: a map that is not decided holds whole numbers.
pub(crate) fn remove(
    alloc: Global,
    known: &mut Known,
    name: &Items<u8>,
    keys: &Items<AnyExpr>,
    place: Place,
) -> Result<(), TypeError>
    ensures refuses { Refuses (breaks (has_other_keys known.old name.now (key_shapes (map made_of keys.now))) OtherKeys) place result }
    ensures learned { OnOk result (known.new ≡ decides known.old name.now Ints (key_shapes (map made_of keys.now))) }
{
    let shapes = shapes(alloc, keys.as_slice())?;
    let mentioned = mention_keys(alloc, known, name, &shapes, place);
    let (shapes, ()) = beside(shapes, mentioned)?;
    known.decide(alloc, name, MapKind::Ints, shapes)?;
    Ok(())
}
