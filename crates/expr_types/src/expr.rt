// Expressions: their first fault, or what they are as typed ones.
ghost use Rattle.std.specs.Prelude.{map, MatchResult};
ghost use Rattle.expr_types.specs.declared.known.Known.{Known};
ghost use Rattle.expr_types.specs.Joint.{joint_seen};
ghost use Rattle.expr_types.specs.Walk.{Seen, of_expr, of_kind, of_map, of_step, map_read, unary_seen, choose_seen};
ghost use Rattle.typed_tree.specs.Parts.{made_of};
ghost use Rattle.expr_types.specs.Judge.{judged, SaysFault};
ghost use Rattle.expr_types.specs.Checked.{Checked, Checks, ChecksNumber, ChecksAll, KeyChecked};

use crate::fault::TypeError;
use crate::field::field;
use crate::known::Known;
use crate::leaf::{Joint, builtin, choose, join, literal, unary};
use crate::maps::{Keyed, read, step};
use crate::variable::{step_variable, variable};
use bt_ast::expr::{Expr, ExprKind, IncDec, MapRef, Target};
use bt_core::beside::beside;
use bt_core::items::Items;
use bt_core::operator::UnOp;
use bt_core::place::Place;
use std::alloc::Global;
use typed_tree::expr::{AnyExpr, NumExpr};

/// An expression: its first fault in walk order, or what it is as a typed one.
///
/// # Errors
///
/// The first rule that is broken, with its place, or want of memory.
#[cycle(expr)]
pub fn check_expr(alloc: Global, known: &mut Known, expr: &Expr) -> Result<AnyExpr, TypeError>
    ensures { Checks (of_expr expr.now) known.old known.new result }
{
    check_kind(alloc, known, &expr.kind, expr.place)
}

/// Several expressions in turn.
#[cycle(expr)]
pub fn check_all(
    alloc: Global,
    known: &mut Known,
    exprs: &[Expr],
) -> Result<Items<AnyExpr>, TypeError>
    ensures { ChecksAll (map of_expr exprs.now) known.old known.new result }
{
    let mut all = Items::new(alloc);
    for expr in exprs {
        let typed = check_expr(alloc, known, expr)?;
        all.push(typed)?;
    }
    Ok(all)
}

/// A map and its key.
#[cycle(expr)]
pub fn check_key(alloc: Global, known: &mut Known, mapped: &MapRef) -> Result<Keyed, TypeError>
    ensures { MatchResult result (λ keyed. KeyChecked (of_map mapped.now) known.old known.new keyed.map.0 (map made_of keyed.keys))
        (λ e. SaysFault (judged (of_map mapped.now).points known.old) e) }
{
    let number = known.name(alloc, &mapped.name)?;
    let keys = check_all(alloc, known, mapped.keys.as_slice())?;
    Ok(Keyed { map: number, keys })
}

/// A map that is read.
#[cycle(expr)]
fn check_map(alloc: Global, known: &mut Known, map: &MapRef) -> Result<AnyExpr, TypeError>
    ensures { Checks (map_read (of_map map.now)) known.old known.new result }
{
    let keyed = check_key(alloc, known, map)?;
    read(alloc, known, &map.name, keyed, map.place)
}

/// `++` or `--`, which also stands as a statement.
#[cycle(expr)]
pub fn check_step(alloc: Global, known: &mut Known, stepped: &IncDec) -> Result<NumExpr, TypeError>
    ensures { ChecksNumber (of_step stepped.now) known.old known.new result }
{
    let (plus, prefix) = (stepped.plus, stepped.prefix);
    match &stepped.target {
        Target::Var(var) => step_variable(known, var, plus, prefix, stepped.place),
        Target::Map(map) => {
            let keyed = check_key(alloc, known, map)?;
            step(alloc, known, &map.name, keyed, map.place, plus, prefix)
        }
    }
}

/// `++` or `--` as an expression.
#[cycle(expr)]
fn check_stepped(alloc: Global, known: &mut Known, stepped: &IncDec) -> Result<AnyExpr, TypeError>
    ensures { Checks (of_step stepped.now) known.old known.new result }
{
    let number = check_step(alloc, known, stepped)?;
    Ok(AnyExpr::Num(number))
}

/// An operator before an expression.
#[cycle(expr)]
fn check_operand(
    alloc: Global,
    known: &mut Known,
    value: &Expr,
    op: UnOp,
    place: Place,
) -> Result<AnyExpr, TypeError>
    ensures { Checks (unary_seen op place (of_expr value.now)) known.old known.new result }
{
    let value = check_expr(alloc, known, value)?;
    unary(alloc, op, value, place)
}

/// The second of two operands, behind the first.
#[cycle(expr)]
fn check_second(
    alloc: Global,
    known: &mut Known,
    right: &Expr,
    left: AnyExpr,
    joint: Joint,
    place: Place,
) -> Result<AnyExpr, TypeError>
    ensures { (s : Seen) (before : Known) → Checked s before known.old (made_of left) →
        Checks (joint_seen joint place s (of_expr right.now)) before known.new result }
{
    let (left, right) = beside(left, check_expr(alloc, known, right))?;
    join(alloc, joint, left, right, place)
}

/// The last part of `condition ? yes : no`, behind the others.
#[cycle(expr)]
fn check_last(
    alloc: Global,
    known: &mut Known,
    no: &Expr,
    condition: AnyExpr,
    yes: AnyExpr,
    place: Place,
) -> Result<AnyExpr, TypeError>
    ensures { (s t : Seen) (before between : Known) → Checked s before between (made_of condition) → Checked t between known.old (made_of yes) →
        Checks (choose_seen place s t (of_expr no.now)) before known.new result }
{
    let ((condition, yes), no) = beside((condition, yes), check_expr(alloc, known, no))?;
    choose(alloc, condition, yes, no, place)
}

/// An expression that begins at a place.
#[cycle(expr)]
fn check_kind(
    alloc: Global,
    known: &mut Known,
    kind: &ExprKind,
    place: Place,
) -> Result<AnyExpr, TypeError>
    ensures { Checks (of_kind kind.now place) known.old known.new result }
{
    match kind {
        ExprKind::Number(number) => Ok(AnyExpr::Num(NumExpr::Number(*number))),
        ExprKind::Text(text) => literal(text.as_slice(), place),
        ExprKind::Builtin(name) => Ok(builtin(*name)),
        ExprKind::Field { name, name_place } => field(alloc, known, name, place, *name_place),
        ExprKind::Var(var) => variable(known, var),
        ExprKind::Map(map) => check_map(alloc, known, map),
        ExprKind::Step(stepped) => check_stepped(alloc, known, stepped),
        ExprKind::Paren(value) => check_expr(alloc, known, value.get()),
        ExprKind::Unary { op, value } => check_operand(alloc, known, value.get(), *op, place),
        ExprKind::Binary { op, left, right } => {
            let left = check_expr(alloc, known, left.get())?;
            check_second(alloc, known, right.get(), left, Joint::Operator(*op), place)
        }
        ExprKind::AndThen { left, right } => {
            let left = check_expr(alloc, known, left.get())?;
            check_second(alloc, known, right.get(), left, Joint::And, place)
        }
        ExprKind::OrElse { left, right } => {
            let left = check_expr(alloc, known, left.get())?;
            check_second(alloc, known, right.get(), left, Joint::Or, place)
        }
        ExprKind::Choose { condition, yes, no } => {
            let condition = check_expr(alloc, known, condition.get())?;
            let (condition, yes) = beside(condition, check_expr(alloc, known, yes.get()))?;
            check_last(alloc, known, no.get(), condition, yes, place)
        }
    }
}
