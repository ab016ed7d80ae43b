// What is gathered in aggregation maps.
ghost use Rattle.std.specs.Prelude.{◌≡◌, ◌<◌, OnOk, length};
ghost use Rattle.bt_parser.specs.Contract.{Reads, behind};
ghost use Rattle.bt_grammar.specs.Form.{Aggregation, Int};
ghost use Rattle.bt_grammar.specs.Reading.{read, reads};
ghost use Rattle.bt_grammar.specs.Rules.{in_parens, value};
ghost use Rattle.bt_parser.specs.Statements.{bounds_by, count_form, gather_form, lhist_form};
ghost use Rattle.bt_grammar.specs.Tokens.{items};

use crate::answer::until;
use crate::cursor::Cursor;
use crate::expr::value_until;
use crate::fault::Fault;
use bt_ast::expr::Expr;
use bt_ast::stmt::AggCall;
use bt_core::operator::BinOp;
use bt_core::place::Place;
use bt_grammar::class::Class;
use std::alloc::Global;

/// A number, with a `-` before it or none.
fn int(tokens: &mut Cursor<'_>) -> Result<i64, Fault>
    ensures reads { Reads (reads Int (items tokens.old)) result tokens.new }
    ensures shorter { OnOk result (length tokens.new < length tokens.old) }
{
    if !tokens.sees(Class::Operator(BinOp::Sub)) {
        return tokens.number();
    }
    tokens.skip();
    Ok(tokens.number()?.wrapping_neg())
}

/// An expression in parentheses.
pub fn in_parens(alloc: Global, tokens: &mut Cursor<'_>) -> Result<Expr, Fault>
    ensures reads { Reads (read reads (in_parens value) (items tokens.old)) result tokens.new }
    ensures shorter { OnOk result (length tokens.new < length tokens.old) }
{
    tokens.expect(Class::OpenParen)?;
    value_until(alloc, tokens, Class::CloseParen)
}

fn count(tokens: &mut Cursor<'_>) -> Result<(AggCall, Place), Fault>
    ensures reads { Reads (read reads count_form (items tokens.old)) result tokens.new }
    ensures shorter { OnOk result (length tokens.new < length tokens.old) }
{
    let place = tokens.expect(Class::CountWord)?;
    tokens.expect(Class::OpenParen)?;
    tokens.expect(Class::CloseParen)?;
    Ok((AggCall::Count, place))
}

fn gather(alloc: Global, tokens: &mut Cursor<'_>) -> Result<(AggCall, Place), Fault>
    ensures reads { Reads (read reads gather_form (items tokens.old)) result tokens.new }
    ensures shorter { OnOk result (length tokens.new < length tokens.old) }
{
    let Some(function) = tokens.gathering() else {
        return Err(Fault::Syntax);
    };
    let place = tokens.skip();
    let number = in_parens(alloc, tokens)?;
    Ok((AggCall::Gather { function, number }, place))
}

/// The bounds and the step of a linear histogram.
#[derive(Clone, Copy)]
struct Bounds {
    min: i64,
    max: i64,
    step: i64,
}

/// A number and, behind it, a token of the class.
fn int_until(tokens: &mut Cursor<'_>, class: Class) -> Result<i64, Fault>
    ensures reads { Reads (behind class (reads Int (items tokens.old))) result tokens.new }
    ensures shorter { OnOk result (length tokens.new < length tokens.old) }
{
    let number = int(tokens);
    until(tokens, number, class)
}

/// The bounds of a linear histogram between commas, and the closing parenthesis.
fn read_bounds(tokens: &mut Cursor<'_>) -> Result<Bounds, Fault>
    ensures reads { Reads (bounds_by (items tokens.old)) result tokens.new }
    ensures shorter { OnOk result (length tokens.new < length tokens.old) }
{
    let min = int_until(tokens, Class::Comma)?;
    let max = int_until(tokens, Class::Comma)?;
    let step = int_until(tokens, Class::CloseParen)?;
    Ok(Bounds { min, max, step })
}

fn lhist(alloc: Global, tokens: &mut Cursor<'_>) -> Result<(AggCall, Place), Fault>
    ensures reads { Reads (read reads lhist_form (items tokens.old)) result tokens.new }
    ensures shorter { OnOk result (length tokens.new < length tokens.old) }
{
    let place = tokens.expect(Class::LhistWord)?;
    tokens.expect(Class::OpenParen)?;
    let number = value_until(alloc, tokens, Class::Comma)?;
    let Bounds { min, max, step } = read_bounds(tokens)?;
    let call = AggCall::Lhist {
        number,
        min,
        max,
        step,
    };
    Ok((call, place))
}

/// A map function and where its word stands.
pub fn aggregation(alloc: Global, tokens: &mut Cursor<'_>) -> Result<(AggCall, Place), Fault>
    ensures reads { Reads (reads Aggregation (items tokens.old)) result tokens.new }
    ensures shorter { OnOk result (length tokens.new < length tokens.old) }
{
    if tokens.sees(Class::CountWord) {
        return count(tokens);
    }
    if tokens.sees(Class::LhistWord) {
        return lhist(alloc, tokens);
    }
    gather(alloc, tokens)
}
