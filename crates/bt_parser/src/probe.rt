// Probes.
ghost use Rattle.std.specs.Prelude.{◌<◌, ◌≤◌, IfOk, OnOk, length};
ghost use Rattle.bt_parser.specs.Contract.{Reads};
ghost use Rattle.bt_grammar.specs.Form.{OneProbe, Points};
ghost use Rattle.bt_parser.specs.Probes.{guarded_by, predicate_form};
ghost use Rattle.bt_grammar.specs.Reading.{read, reads};
ghost use Rattle.bt_grammar.specs.Tokens.{items};

use crate::answer::{added, until};
use crate::block::block;
use crate::cursor::Cursor;
use crate::expr::expression;
use crate::fault::Fault;
use crate::point::place_of_points;
use bt_ast::expr::Expr;
use bt_ast::probe::{Point, Probe};
use bt_ast::stmt::Block;
use bt_core::beside::beside;
use bt_core::items::Items;
use bt_core::operator::BinOp;
use bt_grammar::class::Class;
use std::alloc::Global;

/// What a probe is attached to, between commas, one at least.
fn points(alloc: Global, tokens: &mut Cursor<'_>) -> Result<Items<Point>, Fault>
    ensures reads { Reads (reads Points (items tokens.old)) result tokens.new }
    ensures shorter { OnOk result (length tokens.new < length tokens.old) }
    ensures some { IfOk result (λ points. 0 < length points) }
{
    let mut points = added(Items::new(alloc), tokens.point(alloc))?;
    while tokens.sees(Class::Comma) {
        tokens.skip();
        points = added(points, tokens.point(alloc))?;
    }
    Ok(points)
}

/// An expression between slashes, where a slash comes next.
fn predicate(alloc: Global, tokens: &mut Cursor<'_>) -> Result<Option<Expr>, Fault>
    ensures reads { Reads (read reads predicate_form (items tokens.old)) result tokens.new }
    ensures no_longer { OnOk result (length tokens.new ≤ length tokens.old) }
{
    if !tokens.sees(Class::Operator(BinOp::Div)) {
        return Ok(None);
    }
    tokens.skip();
    let value = expression(alloc, tokens, true);
    let value = until(tokens, value, Class::Operator(BinOp::Div))?;
    Ok(Some(value))
}

/// A predicate or none, and a block.
fn guarded(alloc: Global, tokens: &mut Cursor<'_>) -> Result<(Option<Expr>, Block), Fault>
    ensures reads { Reads (guarded_by (items tokens.old)) result tokens.new }
    ensures shorter { OnOk result (length tokens.new < length tokens.old) }
{
    let predicate = predicate(alloc, tokens)?;
    beside(predicate, block(alloc, tokens))
}

/// A probe: points, a predicate or none, and a block.
pub fn probe(alloc: Global, tokens: &mut Cursor<'_>) -> Result<Probe, Fault>
    ensures reads { Reads (reads OneProbe (items tokens.old)) result tokens.new }
    ensures shorter { OnOk result (length tokens.new < length tokens.old) }
{
    let points = points(alloc, tokens)?;
    let (predicate, block) = guarded(alloc, tokens)?;
    let place = place_of_points(points.as_slice());
    Ok(Probe {
        points,
        predicate,
        block,
        place,
    })
}
