// What stands behind a map or a variable at the front of a statement.
ghost use Rattle.std.specs.Prelude.{◌≡◌, ◌<◌, OnOk, length};
ghost use Rattle.bt_parser.specs.Contract.{Reads};
ghost use Rattle.bt_grammar.specs.Form.{AfterMap, AfterVar, Update};
ghost use Rattle.bt_grammar.specs.Reading.{reads};
ghost use Rattle.bt_parser.specs.Statements.{assign_by, given, set_agg_by};
ghost use Rattle.bt_grammar.specs.Tokens.{items};
ghost use Rattle.bt_grammar.specs.Trees.{place_of_target, step_after};

use crate::agg::aggregation;
use crate::cursor::Cursor;
use crate::expr::expression;
use crate::fault::Fault;
use bt_ast::expr::{IncDec, MapRef, Target, VarRef};
use bt_ast::stmt::StmtKind;
use bt_core::operator::BinOp;
use bt_core::place::Place;
use bt_grammar::class::Class;
use std::alloc::Global;

fn place_of_target(target: &Target) -> Place
    ensures { result ≡ place_of_target target.now }
{
    match target {
        Target::Map(map) => map.place,
        Target::Var(var) => var.place,
    }
}

/// `++` or `--` behind its target.
fn step_after(target: Target, plus: bool) -> IncDec
    ensures { result ≡ step_after target plus (place_of_target target) }
{
    let place = place_of_target(&target);
    IncDec {
        target,
        plus,
        prefix: false,
        place,
    }
}

/// The assignment of a value that comes next, by an operator or none.
fn assign(
    alloc: Global,
    tokens: &mut Cursor<'_>,
    target: Target,
    op: Option<BinOp>,
) -> Result<StmtKind, Fault>
    ensures reads { Reads (assign_by target op (items tokens.old)) result tokens.new }
    ensures shorter { OnOk result (length tokens.new < length tokens.old) }
{
    let value = expression(alloc, tokens, false)?;
    Ok(StmtKind::Assign { target, op, value })
}

/// `++`, `--`, or an operator with `=` and a value.
fn update(alloc: Global, tokens: &mut Cursor<'_>, target: Target) -> Result<StmtKind, Fault>
    ensures reads { Reads (given target (reads Update (items tokens.old))) result tokens.new }
    ensures shorter { OnOk result (length tokens.new < length tokens.old) }
{
    if let Some(plus) = tokens.step() {
        tokens.skip();
        return Ok(StmtKind::Step(step_after(target, plus)));
    }
    let Some(op) = tokens.update() else {
        return Err(Fault::Syntax);
    };
    tokens.skip();
    assign(alloc, tokens, target, Some(op))
}

/// A map function for a map.
fn set_agg(alloc: Global, tokens: &mut Cursor<'_>, map: MapRef) -> Result<StmtKind, Fault>
    ensures reads { Reads (set_agg_by map (items tokens.old)) result tokens.new }
    ensures shorter { OnOk result (length tokens.new < length tokens.old) }
{
    let (agg, agg_place) = aggregation(alloc, tokens)?;
    Ok(StmtKind::SetAgg {
        map,
        agg,
        agg_place,
    })
}

/// What follows a map: `=` with a map function or a value, or an update.
pub fn after_map(alloc: Global, tokens: &mut Cursor<'_>, map: MapRef) -> Result<StmtKind, Fault>
    ensures reads { Reads (given map (reads AfterMap (items tokens.old))) result tokens.new }
    ensures shorter { OnOk result (length tokens.new < length tokens.old) }
{
    if !tokens.sees(Class::Assign) {
        return update(alloc, tokens, Target::Map(map));
    }
    tokens.skip();
    if tokens.begins_aggregation() {
        return set_agg(alloc, tokens, map);
    }
    assign(alloc, tokens, Target::Map(map), None)
}

/// What follows a variable: `=` with a value, or an update.
pub fn after_var(alloc: Global, tokens: &mut Cursor<'_>, var: VarRef) -> Result<StmtKind, Fault>
    ensures reads { Reads (given var (reads AfterVar (items tokens.old))) result tokens.new }
    ensures shorter { OnOk result (length tokens.new < length tokens.old) }
{
    if !tokens.sees(Class::Assign) {
        return update(alloc, tokens, Target::Var(var));
    }
    tokens.skip();
    assign(alloc, tokens, Target::Var(var), None)
}
