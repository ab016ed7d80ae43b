// Assignments, and whole numbers that a statement asks for.
ghost use Rattle.std.specs.Prelude.{◌≡◌, ◌≢◌, ◌≤◌, ◌^◌, Err, IfOk, OnOk, Some, length, map, slice_get};
ghost use Rattle.bt_core.specs.declared.map.Shape.TheVariants.{Int};
ghost use Rattle.expr_types.specs.declared.fault.TypeError.TheVariants.{Memory as NoMemory};
ghost use Rattle.expr_types.specs.declared.known.Var.{Var};
ghost use Rattle.expr_types.specs.Mentions.{NeedsWhole};
ghost use Rattle.expr_types.specs.Known.{var_in, with_var};
ghost use Rattle.expr_types.specs.Judge.{Refuses, Says, judged};
ghost use Rattle.expr_types.specs.Join.{whole_breaks, set_breaks};
ghost use Rattle.expr_types.specs.Walk.{of_expr, of_map, step_points, OnMap, OnVar};
ghost use Rattle.typed_tree.specs.Parts.{made_of, num_parts, stmt_parts};
ghost use Rattle.bt_types.specs.Told.{set_told, update_told, condition_told, number_told};
ghost use Rattle.bt_types.specs.Done.{Does, DoesIn};

use crate::write::{write_key, write_value};
use bt_ast::expr::{Expr, MapRef, VarRef};
use bt_core::beside::beside;
use bt_core::items::Items;
use bt_core::map::{MapKind, Shape};
use bt_core::operator::BinOp;
use bt_core::place::Place;
use expr_types::expr::{check_expr, check_key};
use expr_types::fault::{Rule, TypeError};
use expr_types::known::{Known, number_of};
use expr_types::maps::Keyed;
use expr_types::rules::{broken, same_shape};
use std::alloc::Global;
use typed_tree::expr::{AnyExpr, NumExpr};
use typed_tree::stmt::TypedStmt;

/// The value as a whole number.
///
/// # Errors
///
/// [`Rule::WrongType`] at the place, where it is a string.
fn whole(value: AnyExpr, place: Place) -> Result<NumExpr, TypeError>
    ensures refuses { Refuses (whole_breaks (made_of value).shape) place result }
    ensures made { IfOk result (λ n. num_parts n ≡ (made_of value).parts) }
    ensures not_memory { result ≢ Err NoMemory }
{
    match value {
        AnyExpr::Num(value) => Ok(value),
        AnyExpr::Str(text) => {
            drop(text);
            Err(broken(Rule::WrongType, place))
        }
    }
}

/// An expression that is to be a whole number. A string is refused at the place.
pub(crate) fn check_number(
    alloc: Global,
    known: &mut Known,
    expr: &Expr,
    place: Place,
) -> Result<NumExpr, TypeError>
    ensures { Does (number_told expr.now place) num_parts known.old known.new result }
{
    let value = check_expr(alloc, known, expr)?;
    whole(value, place)
}

/// A condition.
pub(crate) fn check_condition(
    alloc: Global,
    known: &mut Known,
    expr: &Expr,
) -> Result<NumExpr, TypeError>
    ensures { Does (condition_told expr.now) num_parts known.old known.new result }
{
    check_number(alloc, known, expr, expr.place)
}

/// The number of a variable that is assigned a value of this type.
///
/// # Errors
///
/// [`Rule::WrongType`] at the place, where it holds values of the other type.
fn assign(
    alloc: Global,
    known: &mut Known,
    name: &Items<u8>,
    shape: Shape,
    place: Place,
) -> Result<u32, TypeError>
    ensures refuses { Refuses (set_breaks (var_in name.now known.old.vars) shape) place result }
    ensures learned { OnOk result (known.new ≡ with_var known.old (record { name = name.now; shape = shape })) }
    ensures numbered { IfOk result (λ number. slice_get known.new.vars number ≡ Some (record { name = name.now; shape = shape })) }
{
    match known.var(name.as_slice()) {
        Some((number, held)) => {
            if !same_shape(held, shape) {
                return Err(broken(Rule::WrongType, place));
            }
            Ok(number_of(number)?)
        }
        None => {
            let number = known.vars.len();
            known.set(alloc, name, shape)?;
            Ok(number_of(number)?)
        }
    }
}

/// `$var = value`.
pub(crate) fn check_set_var(
    alloc: Global,
    known: &mut Known,
    var: &VarRef,
    value: &Expr,
) -> Result<TypedStmt, TypeError>
    ensures { DoesIn (set_told (OnVar var.now.name var.now.place) (of_expr value.now)) stmt_parts known.old known.new result }
{
    let value = check_expr(alloc, known, value)?;
    let number = assign(alloc, known, &var.name, value.shape(), var.place);
    let (value, number) = beside(value, number)?;
    Ok(TypedStmt::SetVar { var: number, value })
}

/// `map[keys] = value`.
pub(crate) fn check_set_map(
    alloc: Global,
    known: &mut Known,
    map: &MapRef,
    value: &Expr,
) -> Result<TypedStmt, TypeError>
    ensures { DoesIn (set_told (OnMap (of_map map.now)) (of_expr value.now)) stmt_parts known.old known.new result }
{
    let keyed = check_key(alloc, known, map)?;
    let value = check_expr(alloc, known, value);
    let (keyed, value) = beside(keyed, value)?;
    let written = write_value(alloc, known, &map.name, &value, &keyed.keys, map.place);
    let ((Keyed { map, keys }, value), ()) = beside((keyed, value), written)?;
    Ok(TypedStmt::SetMap { map, keys, value })
}

/// The number of a variable that is to hold whole numbers.
///
/// # Errors
///
/// [`Rule::NotSet`] at the variable, and then [`Rule::WrongType`] at the place.
pub(crate) fn number_var(known: &Known, var: &VarRef, place: Place) -> Result<u32, TypeError>
    ensures says { Says (judged (step_points place (OnVar var.now.name var.now.place)) known.now) known.now result }
    ensures numbered { IfOk result (λ number. slice_get known.now.vars number ≡ Some (record { name = var.now.name; shape = Int })) }
    ensures beyond { result ≡ Err NoMemory → 2 ^ 32 ≤ length known.now.vars }
{
    match known.var(var.name.as_slice()) {
        None => Err(broken(Rule::NotSet, var.place)),
        Some((_, Shape::Str)) => Err(broken(Rule::WrongType, place)),
        Some((number, Shape::Int)) => Ok(number_of(number)?),
    }
}

/// `$var op= value`: the value, the variable, and that both are whole numbers.
pub(crate) fn check_update_var(
    alloc: Global,
    known: &mut Known,
    var: &VarRef,
    op: BinOp,
    value: &Expr,
    place: Place,
) -> Result<TypedStmt, TypeError>
    ensures { DoesIn (update_told op (OnVar var.now.name var.now.place) (of_expr value.now) place) stmt_parts known.old known.new result }
{
    let value = check_expr(alloc, known, value)?;
    let number = number_var(known, var, place);
    let (value, number) = beside(value, number)?;
    let value = whole(value, place)?;
    Ok(TypedStmt::UpdateVar {
        var: number,
        op,
        value,
    })
}

/// `map[keys] op= value`: the key, the value, the map, which is to hold whole numbers, and that the value is one.
pub(crate) fn check_update_map(
    alloc: Global,
    known: &mut Known,
    map: &MapRef,
    op: BinOp,
    value: &Expr,
    place: Place,
) -> Result<TypedStmt, TypeError>
    ensures { DoesIn (update_told op (OnMap (of_map map.now)) (of_expr value.now) place) stmt_parts known.old known.new result }
{
    let keyed = check_key(alloc, known, map)?;
    let value = check_expr(alloc, known, value);
    let (keyed, value) = beside(keyed, value)?;
    let kind = MapKind::Ints;
    let written = write_key(alloc, known, &map.name, kind, &keyed.keys, map.place);
    let ((keyed, value), ()) = beside((keyed, value), written)?;
    let number = whole(value, place);
    let (Keyed { map, keys }, value) = beside(keyed, number)?;
    Ok(TypedStmt::UpdateMap {
        map,
        keys,
        op,
        value,
    })
}
