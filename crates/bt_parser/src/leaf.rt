// Operands without operands in them: literals, builtin variables, fields and variables.
ghost use Rattle.std.specs.Prelude.{◌≡◌, ◌<◌, ◌≤◌, OnOk, length};
ghost use Rattle.bt_ast.specs.declared.expr.ExprKind.TheVariants as exprs;
ghost use Rattle.bt_parser.specs.Contract.{Reads};
ghost use Rattle.bt_grammar.specs.Reading.{Done, read, reads};
ghost use Rattle.bt_parser.specs.Mirror.{builtin_form, dot_form, field_form, leaf, map_value, number_form, step_at, step_of, step_on, text_form, variable_form};
ghost use Rattle.bt_grammar.specs.Tokens.{items};
ghost use Rattle.bt_grammar.specs.Trees.{expr};

use crate::cursor::{Cursor, Named};
use crate::fault::Fault;
use bt_ast::expr::{Expr, ExprKind, IncDec, MapRef, Target, VarRef};
use bt_core::place::Place;
use bt_grammar::class::Class;
use std::alloc::Global;

/// `++` or `--` before its target.
pub fn step_value(target: Target, plus: bool, place: Place) -> Expr
    ensures { result ≡ expr (exprs.Step (step_of target plus place)) place }
{
    let kind = ExprKind::Step(IncDec {
        target,
        plus,
        prefix: true,
        place,
    });
    Expr { kind, place }
}

/// A map, with the step behind it where one comes next.
pub fn map_value(tokens: &mut Cursor<'_>, map: MapRef) -> Expr
    ensures reads { step_on (map_value map) (step_at (items tokens.old)) (items tokens.old) ≡ Done result (items tokens.new) }
    ensures no_longer { length tokens.new ≤ length tokens.old }
{
    let place = map.place;
    let Some(plus) = tokens.step() else {
        let kind = ExprKind::Map(map);
        return Expr { kind, place };
    };
    tokens.skip();
    let kind = ExprKind::Step(IncDec {
        target: Target::Map(map),
        plus,
        prefix: false,
        place,
    });
    Expr { kind, place }
}

/// A number, where a token comes next.
fn number(tokens: &mut Cursor<'_>) -> Result<Expr, Fault>
    requires { 0 < length tokens.old }
    ensures reads { Reads (read reads number_form (items tokens.old)) result tokens.new }
    ensures shorter { OnOk result (length tokens.new < length tokens.old) }
{
    let place = tokens.place();
    let number = tokens.number()?;
    let kind = ExprKind::Number(number);
    Ok(Expr { kind, place })
}

fn text(alloc: Global, tokens: &mut Cursor<'_>) -> Result<Expr, Fault>
    ensures reads { Reads (read reads text_form (items tokens.old)) result tokens.new }
    ensures shorter { OnOk result (length tokens.new < length tokens.old) }
{
    let Named { bytes, place } = tokens.named(alloc, Class::TextLiteral)?;
    let kind = ExprKind::Text(bytes);
    Ok(Expr { kind, place })
}

fn builtin(tokens: &mut Cursor<'_>) -> Result<Expr, Fault>
    ensures reads { Reads (read reads builtin_form (items tokens.old)) result tokens.new }
    ensures shorter { OnOk result (length tokens.new < length tokens.old) }
{
    let Some(builtin) = tokens.builtin() else {
        return Err(Fault::Syntax);
    };
    let place = tokens.skip();
    let kind = ExprKind::Builtin(builtin);
    Ok(Expr { kind, place })
}

/// The mark between `args` and the name of a field.
fn dot(tokens: &mut Cursor<'_>) -> Result<Place, Fault>
    ensures reads { Reads (read reads dot_form (items tokens.old)) result tokens.new }
    ensures shorter { OnOk result (length tokens.new < length tokens.old) }
{
    if tokens.sees(Class::Arrow) {
        return Ok(tokens.skip());
    }
    tokens.expect(Class::Dot)
}

/// A field of the event, `args.name` or `args->name`.
fn field(alloc: Global, tokens: &mut Cursor<'_>) -> Result<Expr, Fault>
    ensures reads { Reads (read reads field_form (items tokens.old)) result tokens.new }
    ensures shorter { OnOk result (length tokens.new < length tokens.old) }
{
    let place = tokens.expect(Class::ArgsWord)?;
    dot(tokens)?;
    let word = tokens.word(alloc)?;
    let kind = ExprKind::Field {
        name: word.bytes,
        name_place: word.place,
    };
    Ok(Expr { kind, place })
}

/// A variable, with the step behind it where one comes next.
fn variable(alloc: Global, tokens: &mut Cursor<'_>) -> Result<Expr, Fault>
    ensures reads { Reads (read reads variable_form (items tokens.old)) result tokens.new }
    ensures shorter { OnOk result (length tokens.new < length tokens.old) }
{
    let Named { bytes, place } = tokens.named(alloc, Class::VarName)?;
    let var = VarRef { name: bytes, place };
    let Some(plus) = tokens.step() else {
        let kind = ExprKind::Var(var);
        return Ok(Expr { kind, place });
    };
    tokens.skip();
    let kind = ExprKind::Step(IncDec {
        target: Target::Var(var),
        plus,
        prefix: false,
        place,
    });
    Ok(Expr { kind, place })
}

/// An operand that begins with a number, a string, a builtin variable, `args` or a variable.
pub fn leaf(alloc: Global, tokens: &mut Cursor<'_>) -> Result<Expr, Fault>
    ensures reads { Reads (read reads leaf (items tokens.old)) result tokens.new }
    ensures shorter { OnOk result (length tokens.new < length tokens.old) }
{
    if tokens.sees(Class::NumberLiteral) {
        return number(tokens);
    }
    if tokens.sees(Class::TextLiteral) {
        return text(alloc, tokens);
    }
    if tokens.sees(Class::ArgsWord) {
        return field(alloc, tokens);
    }
    if tokens.sees(Class::VarName) {
        return variable(alloc, tokens);
    }
    builtin(tokens)
}
