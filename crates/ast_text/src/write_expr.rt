// The texts of expressions.
ghost use Rattle.std.specs.Prelude.{◌≡◌, ◌++◌, OnOk, map};
ghost use Rattle.ast_text.specs.Words.{token};
ghost use Rattle.ast_text.specs.Exprs.{marked, key_text, step_mark, expr_text, kind_text, target_text, step_text, map_text};

use crate::words::{
    binary_mark, builtin_word, unary_mark, write_number, write_quoted, write_token,
};
use bt_ast::expr::{Expr, ExprKind, IncDec, MapRef, Target};
use bt_core::memory::Memory;

/// The mark of a step up or down.
fn step_mark(plus: bool) -> &'static [u8]
    ensures { result.now ≡ step_mark plus }
{
    if plus { b"++" } else { b"--" }
}

/// Writes an expression.
#[cycle(expr)]
pub(crate) fn write_expr(out: &mut Vec<u8>, expr: &Expr) -> Result<(), Memory>
    ensures { OnOk result (out.new.items ≡ out.old.items ++ expr_text expr.now) }
{
    write_kind(out, &expr.kind)
}

#[cycle(expr)]
fn write_kind(out: &mut Vec<u8>, kind: &ExprKind) -> Result<(), Memory>
    ensures { OnOk result (out.new.items ≡ out.old.items ++ kind_text kind.now) }
{
    match kind {
        ExprKind::Number(number) => write_number(out, *number),
        ExprKind::Text(text) => write_quoted(out, text.as_slice()),
        ExprKind::Builtin(builtin) => write_token(out, builtin_word(*builtin)),
        ExprKind::Field {
            name,
            name_place: _,
        } => {
            write_token(out, b"args")?;
            write_token(out, b".")?;
            write_token(out, name.as_slice())
        }
        ExprKind::Var(var) => write_token(out, var.name.as_slice()),
        ExprKind::Map(map) => write_map(out, map),
        ExprKind::Step(step) => write_step(out, step),
        ExprKind::Paren(value) => {
            write_token(out, b"(")?;
            write_expr(out, value.get())?;
            write_token(out, b")")
        }
        ExprKind::Unary { op, value } => {
            write_token(out, unary_mark(*op))?;
            write_expr(out, value.get())
        }
        ExprKind::Binary { op, left, right } => {
            write_expr(out, left.get())?;
            write_behind(out, binary_mark(*op), right.get())
        }
        ExprKind::AndThen { left, right } => {
            write_expr(out, left.get())?;
            write_behind(out, b"&&", right.get())
        }
        ExprKind::OrElse { left, right } => {
            write_expr(out, left.get())?;
            write_behind(out, b"||", right.get())
        }
        ExprKind::Choose { condition, yes, no } => {
            write_expr(out, condition.get())?;
            write_behind(out, b"?", yes.get())?;
            write_behind(out, b":", no.get())
        }
    }
}

/// Writes an expression behind a mark.
#[cycle(expr)]
fn write_behind(out: &mut Vec<u8>, mark: &[u8], expr: &Expr) -> Result<(), Memory>
    ensures { OnOk result (out.new.items ≡ out.old.items ++ (token mark.now ++ expr_text expr.now)) }
{
    write_token(out, mark)?;
    write_expr(out, expr)
}

#[cycle(expr)]
pub(crate) fn write_target(out: &mut Vec<u8>, target: &Target) -> Result<(), Memory>
    ensures { OnOk result (out.new.items ≡ out.old.items ++ target_text target.now) }
{
    match target {
        Target::Map(map) => write_map(out, map),
        Target::Var(var) => write_token(out, var.name.as_slice()),
    }
}

#[cycle(expr)]
pub(crate) fn write_step(out: &mut Vec<u8>, step: &IncDec) -> Result<(), Memory>
    ensures { OnOk result (out.new.items ≡ out.old.items ++ step_text step.now) }
{
    if step.prefix {
        write_token(out, step_mark(step.plus))?;
        write_target(out, &step.target)
    } else {
        write_target(out, &step.target)?;
        write_token(out, step_mark(step.plus))
    }
}

#[cycle(expr)]
pub(crate) fn write_map(out: &mut Vec<u8>, map: &MapRef) -> Result<(), Memory>
    ensures { OnOk result (out.new.items ≡ out.old.items ++ map_text map.now) }
{
    write_token(out, map.name.as_slice())?;
    write_key(out, map.keys.as_slice())
}

/// Writes the parts of a key in brackets, where there are any.
#[cycle(expr)]
fn write_key(out: &mut Vec<u8>, parts: &[Expr]) -> Result<(), Memory>
    ensures { OnOk result (out.new.items ≡ out.old.items ++ key_text (map expr_text parts.now)) }
{
    if parts.is_empty() {
        return Ok(());
    }
    write_marked(out, b"[", parts)?;
    write_token(out, b"]")
}

/// Writes expressions with a mark before the first and a comma before each other.
#[cycle(expr)]
pub(crate) fn write_marked(out: &mut Vec<u8>, first: &[u8], exprs: &[Expr]) -> Result<(), Memory>
    ensures { OnOk result (out.new.items ≡ out.old.items ++ marked first.now (map expr_text exprs.now)) }
{
    let mut mark = first;
    for expr in exprs {
        write_behind(out, mark, expr)?;
        mark = b",";
    }
    Ok(())
}
