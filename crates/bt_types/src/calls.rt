// Calls on maps: `print`, `clear`, `zero` and `delete`.
ghost use Rattle.std.specs.Prelude.{◌≡◌, ◌≢◌, ◌∷◌, ◌++◌, [], Bool, Err, List, IfOk, OnOk, MatchResult, Some, map, not, unsigned_abs};
ghost use Rattle.typed_tree.specs.Parts.{Made, delete_parts, key_shapes, made_of, stmt_parts};
ghost use Rattle.expr_types.specs.declared.fault.Rule.TheVariants.{WrongType};
ghost use Rattle.expr_types.specs.declared.fault.TypeError.TheVariants.{Memory as NoMemory};
ghost use Rattle.expr_types.specs.Judge.{Refuses, Says, SaysFault, judged};
ghost use Rattle.expr_types.specs.Rules.{are_rows, breaks};
ghost use Rattle.expr_types.specs.Walk.{of_expr, of_map};
ghost use Rattle.bt_types.specs.Told.{clear_told, delete_points, delete_told, print_told, used, zero_told};
ghost use Rattle.bt_types.specs.Done.{DoesIn, Removed, UseChecked};
ghost use Rattle.expr_types.specs.Known.{shape_in};
ghost use Rattle.expr_types.specs.Mentions.{Sort};

use crate::write::{check_shared, remove, use_map};
use bt_ast::expr::{Expr, MapRef};
use bt_core::beside::beside;
use bt_core::items::Items;
use bt_core::map::MapId;
use bt_core::memory::Memory;
use bt_core::place::Place;
use expr_types::expr::{check_expr, check_key};
use expr_types::fault::{Rule, TypeError};
use expr_types::known::Known;
use expr_types::maps::Keyed;
use expr_types::rules::broken;
use std::alloc::Global;
use typed_tree::expr::AnyExpr;
use typed_tree::stmt::TypedStmt;

/// A map as a whole.
fn check_used(alloc: Global, known: &mut Known, map: &MapRef) -> Result<MapId, TypeError>
    ensures { MatchResult result (λ id. UseChecked (of_map map.now) known.old known.new id.0) (λ e. SaysFault (judged (used (of_map map.now)) known.old) e) }
{
    let keyed = check_key(alloc, known, map)?;
    use_map(alloc, known, &map.name, map.place)?;
    Ok(keyed.map)
}

/// The numbers of `print`, of which the first is not negative and the second is at least 1.
fn check_rows(top: i64, div: i64, place: Place) -> Result<u64, TypeError>
    ensures refuses { Refuses (breaks (not (are_rows top div)) WrongType) place result }
    ensures same { IfOk result (λ rows. rows ≡ unsigned_abs top) }
    ensures not_memory { result ≢ Err NoMemory }
{
    if top < 0 || div < 1 {
        return Err(broken(Rule::WrongType, place));
    }
    Ok(top.unsigned_abs())
}

/// `print(map, top, div)`: the map, and then the numbers.
pub(crate) fn check_print(
    alloc: Global,
    known: &mut Known,
    map: &MapRef,
    top: i64,
    div: i64,
    place: Place,
) -> Result<TypedStmt, TypeError>
    ensures { DoesIn (print_told (of_map map.now) top div place) stmt_parts known.old known.new result }
{
    let map = check_used(alloc, known, map)?;
    let top = check_rows(top, div, place)?;
    Ok(TypedStmt::Print { map, top, div })
}

/// `clear(map)`.
pub(crate) fn check_clear(
    alloc: Global,
    known: &mut Known,
    map: &MapRef,
) -> Result<TypedStmt, TypeError>
    ensures { DoesIn (clear_told (of_map map.now)) stmt_parts known.old known.new result }
{
    let map = check_used(alloc, known, map)?;
    Ok(TypedStmt::Clear(map))
}

/// `zero(map)`.
pub(crate) fn check_zero(
    alloc: Global,
    known: &mut Known,
    map: &MapRef,
) -> Result<TypedStmt, TypeError>
    ensures { DoesIn (zero_told (of_map map.now)) stmt_parts known.old known.new result }
{
    let map = check_used(alloc, known, map)?;
    Ok(TypedStmt::Zero(map))
}

/// A mention of a map of which a key of these parts is deleted: the map as a whole, that it is no aggregation, and its key.
fn mention_removed(
    alloc: Global,
    known: &mut Known,
    name: &Items<u8>,
    at_map: Place,
    keys: &Items<AnyExpr>,
    place: Place,
) -> Result<(), TypeError>
    ensures says { (sorts : List Sort) → map (shape_in known.old) sorts ≡ map (λ (m : Made). Some m.shape) (map made_of keys.now)
        → Says (judged (delete_points name.now at_map place sorts) known.old) known.new result }
    ensures removed { OnOk result (Removed known.old known.new name.now (key_shapes (map made_of keys.now))) }
{
    use_map(alloc, known, name, at_map)?;
    check_shared(known, name, place)?;
    remove(alloc, known, name, keys, at_map)?;
    Ok(())
}

/// The deletion of a key, whose parts were checked: the map as a whole, that it is no aggregation, and its key.
fn check_removed(
    alloc: Global,
    known: &mut Known,
    name: &Items<u8>,
    at_map: Place,
    keyed: Keyed,
    place: Place,
) -> Result<TypedStmt, TypeError>
    ensures says { (sorts : List Sort) → map (shape_in known.old) sorts ≡ map (λ (m : Made). Some m.shape) (map made_of keyed.keys)
        → Says (judged (delete_points name.now at_map place sorts) known.old) known.new result }
    ensures removed { OnOk result (Removed known.old known.new name.now (key_shapes (map made_of keyed.keys))) }
    ensures made { IfOk result (λ s. (inside : Bool) → stmt_parts s inside ≡ delete_parts keyed.map.0 (map made_of keyed.keys)) }
{
    let removed = mention_removed(alloc, known, name, at_map, &keyed.keys, place);
    let (Keyed { map, keys }, ()) = beside(keyed, removed)?;
    Ok(TypedStmt::Delete { map, keys })
}

/// `delete(map[keys])`.
pub(crate) fn check_delete(
    alloc: Global,
    known: &mut Known,
    map: &MapRef,
    place: Place,
) -> Result<TypedStmt, TypeError>
    ensures { DoesIn (delete_told (of_map map.now) [] place) stmt_parts known.old known.new result }
{
    let keyed = check_key(alloc, known, map)?;
    check_removed(alloc, known, &map.name, map.place, keyed, place)
}

/// A map and a key with one part more.
fn with_part(keyed: Keyed, part: AnyExpr) -> Result<Keyed, Memory>
    ensures { IfOk result (λ all. (all.map ≡ keyed.map) × (all.keys ≡ keyed.keys ++ part ∷ [])) }
{
    let Keyed { map, mut keys } = keyed;
    keys.push(part)?;
    Ok(Keyed { map, keys })
}

/// `delete(map, key)`.
pub(crate) fn check_delete_key(
    alloc: Global,
    known: &mut Known,
    map: &MapRef,
    key: &Expr,
    place: Place,
) -> Result<TypedStmt, TypeError>
    ensures { DoesIn (delete_told (of_map map.now) (of_expr key.now ∷ []) place) stmt_parts known.old known.new result }
{
    let keyed = check_key(alloc, known, map)?;
    let key = check_expr(alloc, known, key);
    let (keyed, key) = beside(keyed, key)?;
    let keyed = with_part(keyed, key)?;
    check_removed(alloc, known, &map.name, map.place, keyed, place)
}
