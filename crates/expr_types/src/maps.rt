// Mentions of maps.
ghost use Rattle.std.specs.Prelude.{◌≡◌, ◌∷◌, true, IfOk, OnOk, MatchResult, map};
ghost use Rattle.std.specs.Option.{option_copied};
ghost use Rattle.bt_core.specs.declared.map.MapKind.TheVariants.{Ints};
ghost use Rattle.bt_core.specs.declared.map.Shape.TheVariants.{Int};
ghost use Rattle.typed_tree.specs.Parts.{made_of, num_parts, key_shapes, keyed_parts, Stepped};
ghost use Rattle.typed_tree.specs.Scope.{is_fine_kind, is_fine_decl};
ghost use Rattle.expr_types.specs.declared.fault.TypeError.TheVariants.{Memory as NoMemory};
ghost use Rattle.expr_types.specs.Known.{decl_in, decides};
ghost use Rattle.expr_types.specs.Judge.{Refuses};
ghost use Rattle.expr_types.specs.Rules.{read_breaks, write_breaks};
ghost use Rattle.expr_types.specs.Maps.{kind_held, read_made};

use crate::fault::TypeError;
use crate::known::Known;
use crate::rules::{broken, read_breaks, write_breaks};
use bt_core::items::Items;
use bt_core::map::{MapDecl, MapId, MapKind, Shape};
use bt_core::memory::Memory;
use bt_core::place::Place;
use std::alloc::Global;
use typed_tree::expr::{AnyExpr, NumExpr, StrExpr};

/// A map and the parts of its key.
#[derive(Drop)]
pub struct Keyed {
    pub map: MapId,
    pub keys: Items<AnyExpr>,
}

/// The types of the parts of a key.
pub fn shapes(alloc: Global, keys: &[AnyExpr]) -> Result<Items<Shape>, Memory>
    ensures { IfOk result (λ shapes. shapes ≡ key_shapes (map made_of keys.now)) }
{
    let mut shapes = Items::new(alloc);
    for key in keys {
        shapes.push(key.shape())?;
    }
    Ok(shapes)
}

/// What a map was decided to hold, and whole numbers where nothing was decided.
fn kind_held(decl: Option<&MapDecl>) -> MapKind
    ensures { result ≡ kind_held (option_copied decl.entry) }
{
    match decl {
        None => MapKind::Ints,
        Some(decl) => decl.kind,
    }
}

/// The value of a map that holds this, or its number.
fn value_of(kind: MapKind, keyed: Keyed) -> AnyExpr
    ensures { made_of result ≡ read_made kind keyed.map.0 (map made_of keyed.keys) }
{
    let Keyed { map, keys } = keyed;
    match kind {
        MapKind::Ints => AnyExpr::Num(NumExpr::Map { map, keys }),
        MapKind::Strs => AnyExpr::Str(StrExpr::Map { map, keys }),
        MapKind::Aggs(_) => AnyExpr::Num(NumExpr::Agg { map, keys }),
    }
}

/// What no rule forbids: a mention that decides this kind.
fn settle(
    alloc: Global,
    known: &mut Known,
    name: &Items<u8>,
    kind: MapKind,
    shapes: Items<Shape>,
) -> Result<(), TypeError>
    requires { is_fine_decl (record { name = name.now; kind = kind; key_shape = shapes }) ≡ true }
    ensures { MatchResult result (λ _. known.new ≡ decides known.old name.now kind shapes) (λ e. e ≡ NoMemory) }
{
    match known.mention(alloc, name) {
        Ok(()) => match known.decide(alloc, name, kind, shapes) {
            Ok(()) => Ok(()),
            Err(_) => Err(TypeError::Memory),
        },
        Err(_) => {
            drop(shapes);
            Err(TypeError::Memory)
        }
    }
}

/// A mention that decides that a map holds whole numbers, where nothing is decided, with a key of these parts.
fn read_mention(
    alloc: Global,
    known: &mut Known,
    name: &Items<u8>,
    keys: &Items<AnyExpr>,
    place: Place,
) -> Result<(), TypeError>
    ensures refuses { Refuses (read_breaks known.old name.now (key_shapes (map made_of keys.now))) place result }
    ensures learned { OnOk result (known.new ≡ decides known.old name.now Ints (key_shapes (map made_of keys.now))) }
{
    let shapes = shapes(alloc, keys.as_slice())?;
    match read_breaks(known, name.as_slice(), shapes.as_slice()) {
        None => settle(alloc, known, name, MapKind::Ints, shapes),
        Some(rule) => {
            drop(shapes);
            Err(broken(rule, place))
        }
    }
}

/// A read of a map.
pub fn read(
    alloc: Global,
    known: &mut Known,
    name: &Items<u8>,
    keyed: Keyed,
    place: Place,
) -> Result<AnyExpr, TypeError>
    ensures refuses { Refuses (read_breaks known.old name.now (key_shapes (map made_of keyed.keys))) place result }
    ensures learned { OnOk result (known.new ≡ decides known.old name.now Ints (key_shapes (map made_of keyed.keys))) }
    ensures made { IfOk result (λ e. made_of e ≡ read_made (kind_held (decl_in name.now known.new.decided)) keyed.map.0 (map made_of keyed.keys)) }
{
    match read_mention(alloc, known, name, &keyed.keys, place) {
        Ok(()) => Ok(value_of(kind_held(known.decl(name.as_slice())), keyed)),
        Err(error) => {
            drop(keyed);
            Err(error)
        }
    }
}

/// A mention that decides this kind, which is fine by itself.
pub fn write(
    alloc: Global,
    known: &mut Known,
    name: &Items<u8>,
    kind: MapKind,
    shapes: Items<Shape>,
    place: Place,
) -> Result<(), TypeError>
    requires { is_fine_kind kind ≡ true }
    ensures refuses { Refuses (write_breaks known.old name.now kind shapes) place result }
    ensures learned { OnOk result (known.new ≡ decides known.old name.now kind shapes) }
{
    match write_breaks(known, name.as_slice(), kind, shapes.as_slice()) {
        None => settle(alloc, known, name, kind, shapes),
        Some(rule) => {
            drop(shapes);
            Err(broken(rule, place))
        }
    }
}

/// A mention that decides that a map holds whole numbers, with a key of these parts.
fn step_mention(
    alloc: Global,
    known: &mut Known,
    name: &Items<u8>,
    keys: &Items<AnyExpr>,
    place: Place,
) -> Result<(), TypeError>
    ensures refuses { Refuses (write_breaks known.old name.now Ints (key_shapes (map made_of keys.now))) place result }
    ensures learned { OnOk result (known.new ≡ decides known.old name.now Ints (key_shapes (map made_of keys.now))) }
{
    let shapes = shapes(alloc, keys.as_slice())?;
    write(alloc, known, name, MapKind::Ints, shapes, place)
}

/// `++` or `--` of a map.
pub fn step(
    alloc: Global,
    known: &mut Known,
    name: &Items<u8>,
    keyed: Keyed,
    place: Place,
    plus: bool,
    prefix: bool,
) -> Result<NumExpr, TypeError>
    ensures refuses { Refuses (write_breaks known.old name.now Ints (key_shapes (map made_of keyed.keys))) place result }
    ensures learned { OnOk result (known.new ≡ decides known.old name.now Ints (key_shapes (map made_of keyed.keys))) }
    ensures made { IfOk result (λ n. num_parts n ≡ (Stepped plus prefix ∷ keyed_parts keyed.map.0 (map made_of keyed.keys) Int)) }
{
    match step_mention(alloc, known, name, &keyed.keys, place) {
        Ok(()) => {
            let Keyed { map, keys } = keyed;
            Ok(NumExpr::StepMap {
                map,
                keys,
                plus,
                prefix,
            })
        }
        Err(error) => {
            drop(keyed);
            Err(error)
        }
    }
}
