// Expressions.
ghost use Rattle.std.specs.Prelude.{◌≡◌, ◌<◌, ◌≤◌, OnOk, length};
ghost use Rattle.bt_parser.specs.Contract.{Makes, Reads};
ghost use Rattle.bt_grammar.specs.Form.{Assignable, Expression, Keyed, Level, Primary, Unary, Until};
ghost use Rattle.bt_grammar.specs.Reading.{read, reads};
ghost use Rattle.bt_parser.specs.Mirror.{alternatives_by, chosen_by, joined_by, keys_by, operand_by, paren_by, step_by, values_behind};
ghost use Rattle.bt_ast.specs.declared.expr.ExprKind.TheVariants as exprs;
ghost use Rattle.bt_grammar.specs.Rules.{value};
ghost use Rattle.bt_grammar.specs.Tokens.{items};
ghost use Rattle.bt_grammar.specs.Trees.{binary_kind, expr, place_of_expr};

use crate::answer::{added, until};
use crate::cursor::{Cursor, Named};
use crate::fault::Fault;
use crate::leaf::{leaf, map_value, step_value};
use crate::tables::tighter;
use bt_ast::expr::{Expr, ExprKind, MapRef, Target, VarRef};
use bt_core::beside::beside;
use bt_core::boxed::Boxed;
use bt_core::items::Items;
use bt_core::place::Place;
use bt_grammar::class::{Class, Tier};
use std::alloc::Global;

/// Two expressions in boxes.
#[derive(Drop)]
struct Both {
    first: Boxed<Expr>,
    second: Boxed<Expr>,
}

/// What two operands are that an operator joins.
fn joined_kind(class: Class, both: Both) -> ExprKind
    ensures { result ≡ binary_kind class both.first both.second }
{
    let Both {
        first: left,
        second: right,
    } = both;
    match class {
        Class::Operator(op) => ExprKind::Binary { op, left, right },
        Class::AndAnd => ExprKind::AndThen { left, right },
        _ => ExprKind::OrElse { left, right },
    }
}

/// Puts two expressions into boxes.
fn boxed_both(alloc: Global, a: Expr, b: Expr) -> Result<Both, Fault>
    ensures { Makes (record { first = a; second = b }) result }
{
    let first = Boxed::new(alloc, a)?;
    boxed_second(alloc, first, b)
}

/// Puts the second of two expressions into its box.
fn boxed_second(alloc: Global, first: Boxed<Expr>, b: Expr) -> Result<Both, Fault>
    ensures { Makes (record { first = first; second = b }) result }
{
    let second = Boxed::new(alloc, b)?;
    Ok(Both { first, second })
}

/// `condition ? yes : no`, of the condition and both the others.
fn choose(alloc: Global, condition: Expr, both: Both) -> Result<Expr, Fault>
    ensures { Makes (expr (exprs.Choose condition both.first both.second) (place_of_expr condition)) result }
{
    let place = condition.place;
    let condition = Boxed::new(alloc, condition)?;
    let kind = choose_kind(condition, both);
    Ok(Expr { kind, place })
}

/// `condition ? yes : no`, where all are in boxes.
fn choose_kind(condition: Boxed<Expr>, both: Both) -> ExprKind
    ensures { result ≡ exprs.Choose condition both.first both.second }
{
    let Both {
        first: yes,
        second: no,
    } = both;
    ExprKind::Choose { condition, yes, no }
}

/// An expression. In a predicate, outside its brackets, a `/` before a brace does not go on with it.
#[cycle(expr)]
pub fn expression(alloc: Global, tokens: &mut Cursor<'_>, in_predicate: bool) -> Result<Expr, Fault>
    ensures reads { Reads (reads (Expression in_predicate) (items tokens.old)) result tokens.new }
    ensures shorter { OnOk result (length tokens.new < length tokens.old) }
{
    let condition = level(alloc, tokens, in_predicate, Tier::OrElses)?;
    if !tokens.sees(Class::Question) {
        return Ok(condition);
    }
    tokens.skip();
    choice(alloc, tokens, in_predicate, condition)
}

/// What a condition is with the two expressions behind its `?`.
#[cycle(expr)]
fn choice(
    alloc: Global,
    tokens: &mut Cursor<'_>,
    in_predicate: bool,
    condition: Expr,
) -> Result<Expr, Fault>
    ensures reads { Reads (chosen_by in_predicate condition (items tokens.old)) result tokens.new }
    ensures shorter { OnOk result (length tokens.new < length tokens.old) }
{
    let both = alternatives(alloc, tokens, in_predicate)?;
    choose(alloc, condition, both)
}

/// Two expressions with a colon between them.
#[cycle(expr)]
fn alternatives(alloc: Global, tokens: &mut Cursor<'_>, in_predicate: bool) -> Result<Both, Fault>
    ensures reads { Reads (alternatives_by in_predicate (items tokens.old)) result tokens.new }
    ensures shorter { OnOk result (length tokens.new < length tokens.old) }
{
    let yes = value_until(alloc, tokens, Class::Colon)?;
    let no = expression(alloc, tokens, in_predicate)?;
    boxed_both(alloc, yes, no)
}

/// An expression and, behind it, a token of the class.
#[cycle(expr)]
pub fn value_until(alloc: Global, tokens: &mut Cursor<'_>, class: Class) -> Result<Expr, Fault>
    ensures reads { Reads (read reads (Until value class) (items tokens.old)) result tokens.new }
    ensures shorter { OnOk result (length tokens.new < length tokens.old) }
{
    let value = expression(alloc, tokens, false);
    until(tokens, value, class)
}

/// Operands joined by operators of the tier, from the left.
#[cycle(expr)]
fn level(
    alloc: Global,
    tokens: &mut Cursor<'_>,
    in_predicate: bool,
    tier: Tier,
) -> Result<Expr, Fault>
    ensures reads { Reads (reads (Level in_predicate tier) (items tokens.old)) result tokens.new }
    ensures shorter { OnOk result (length tokens.new < length tokens.old) }
{
    let mut left = operand(alloc, tokens, in_predicate, tighter(tier))?;
    while let Some(class) = tokens.operator(in_predicate, tier) {
        tokens.skip();
        left = joined(alloc, tokens, in_predicate, tier, class, left)?;
    }
    Ok(left)
}

/// A left operand joined with the one that comes next.
#[cycle(expr)]
fn joined(
    alloc: Global,
    tokens: &mut Cursor<'_>,
    in_predicate: bool,
    tier: Tier,
    class: Class,
    left: Expr,
) -> Result<Expr, Fault>
    ensures reads { Reads (joined_by in_predicate tier class left (items tokens.old)) result tokens.new }
    ensures shorter { OnOk result (length tokens.new < length tokens.old) }
{
    let place = left.place;
    let (left, right) = beside(left, operand(alloc, tokens, in_predicate, tighter(tier)))?;
    let both = boxed_both(alloc, left, right)?;
    let kind = joined_kind(class, both);
    Ok(Expr { kind, place })
}

/// What operators join: operands of the next tier, or one without operators between operands.
#[cycle(expr)]
fn operand(
    alloc: Global,
    tokens: &mut Cursor<'_>,
    in_predicate: bool,
    tier: Option<Tier>,
) -> Result<Expr, Fault>
    ensures reads { Reads (operand_by in_predicate tier (items tokens.old)) result tokens.new }
    ensures shorter { OnOk result (length tokens.new < length tokens.old) }
{
    match tier {
        None => unary(alloc, tokens),
        Some(tier) => level(alloc, tokens, in_predicate, tier),
    }
}

#[cycle(expr)]
fn unary(alloc: Global, tokens: &mut Cursor<'_>) -> Result<Expr, Fault>
    ensures reads { Reads (reads Unary (items tokens.old)) result tokens.new }
    ensures shorter { OnOk result (length tokens.new < length tokens.old) }
{
    let Some(op) = tokens.prefix() else {
        return primary(alloc, tokens);
    };
    let place = tokens.skip();
    let value = Boxed::new(alloc, unary(alloc, tokens)?)?;
    let kind = ExprKind::Unary { op, value };
    Ok(Expr { kind, place })
}

#[cycle(expr)]
fn primary(alloc: Global, tokens: &mut Cursor<'_>) -> Result<Expr, Fault>
    ensures reads { Reads (reads Primary (items tokens.old)) result tokens.new }
    ensures shorter { OnOk result (length tokens.new < length tokens.old) }
{
    if tokens.sees(Class::OpenParen) {
        let place = tokens.skip();
        return closed(alloc, tokens, place);
    }
    if tokens.sees(Class::MapName) {
        let map = keyed(alloc, tokens)?;
        return Ok(map_value(tokens, map));
    }
    let Some(plus) = tokens.step() else {
        return leaf(alloc, tokens);
    };
    let place = tokens.skip();
    stepped(alloc, tokens, plus, place)
}

/// An expression in parentheses, behind the first of them, which stands at the place.
#[cycle(expr)]
fn closed(alloc: Global, tokens: &mut Cursor<'_>, place: Place) -> Result<Expr, Fault>
    ensures reads { Reads (paren_by place (items tokens.old)) result tokens.new }
    ensures shorter { OnOk result (length tokens.new < length tokens.old) }
{
    let inner = value_until(alloc, tokens, Class::CloseParen)?;
    let kind = ExprKind::Paren(Boxed::new(alloc, inner)?);
    Ok(Expr { kind, place })
}

/// The target of a `++` or `--` that stands before it, at the place.
#[cycle(expr)]
fn stepped(alloc: Global, tokens: &mut Cursor<'_>, plus: bool, place: Place) -> Result<Expr, Fault>
    ensures reads { Reads (step_by plus place (items tokens.old)) result tokens.new }
    ensures shorter { OnOk result (length tokens.new < length tokens.old) }
{
    let target = assignable(alloc, tokens)?;
    Ok(step_value(target, plus, place))
}

/// A map, with the parts of its key in brackets if it has one.
#[cycle(expr)]
pub fn keyed(alloc: Global, tokens: &mut Cursor<'_>) -> Result<MapRef, Fault>
    ensures reads { Reads (reads Keyed (items tokens.old)) result tokens.new }
    ensures shorter { OnOk result (length tokens.new < length tokens.old) }
{
    let Named { bytes, place } = tokens.named(alloc, Class::MapName)?;
    let keys = keys(alloc, tokens)?;
    Ok(MapRef {
        name: bytes,
        keys,
        place,
    })
}

/// The parts of a key in brackets, where a bracket comes next.
#[cycle(expr)]
fn keys(alloc: Global, tokens: &mut Cursor<'_>) -> Result<Items<Expr>, Fault>
    ensures reads { Reads (keys_by (items tokens.old)) result tokens.new }
    ensures no_longer { OnOk result (length tokens.new ≤ length tokens.old) }
{
    let none = Items::new(alloc);
    if !tokens.sees(Class::OpenBracket) {
        return Ok(none);
    }
    tokens.skip();
    let keys = values(alloc, tokens, none);
    until(tokens, keys, Class::CloseBracket)
}

/// A map or a variable.
#[cycle(expr)]
pub fn assignable(alloc: Global, tokens: &mut Cursor<'_>) -> Result<Target, Fault>
    ensures reads { Reads (reads Assignable (items tokens.old)) result tokens.new }
    ensures shorter { OnOk result (length tokens.new < length tokens.old) }
{
    if tokens.sees(Class::MapName) {
        return Ok(Target::Map(keyed(alloc, tokens)?));
    }
    let Named { bytes, place } = tokens.named(alloc, Class::VarName)?;
    Ok(Target::Var(VarRef { name: bytes, place }))
}

/// Expressions between commas, one at least, behind those that there are.
#[cycle(expr)]
pub fn values(
    alloc: Global,
    tokens: &mut Cursor<'_>,
    front: Items<Expr>,
) -> Result<Items<Expr>, Fault>
    ensures reads { Reads (values_behind front (items tokens.old)) result tokens.new }
    ensures shorter { OnOk result (length tokens.new < length tokens.old) }
{
    let mut values = added(front, expression(alloc, tokens, false))?;
    while tokens.sees(Class::Comma) {
        tokens.skip();
        values = added(values, expression(alloc, tokens, false))?;
    }
    Ok(values)
}
