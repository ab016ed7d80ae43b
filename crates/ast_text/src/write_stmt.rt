// The texts of statements and blocks.
ghost use Rattle.std.specs.Prelude.{◌≡◌, ◌++◌, [], OnOk, map, option_map, codes};
ghost use Rattle.ast_text.specs.Words.{token, assign_mark, number_text, quoted_text};
ghost use Rattle.ast_text.specs.Exprs.{expr_text, map_text, target_text, step_text, marked};
ghost use Rattle.ast_text.specs.Stmts.{optional_text, simple, call_text, agg_text, otherwise_text, kind_text, block_text};

use crate::words::{write_assign, write_ending, write_number, write_quoted, write_token};
use crate::write_agg::{open_call, write_agg, write_call};
use crate::write_expr::{write_expr, write_map, write_marked, write_step, write_target};
use bt_ast::expr::{Expr, IncDec, MapRef, Target};
use bt_ast::stmt::{AggCall, Block, StmtKind};
use bt_core::memory::Memory;
use bt_core::operator::BinOp;

fn write_set_agg(out: &mut Vec<u8>, map: &MapRef, agg: &AggCall) -> Result<(), Memory>
    ensures { OnOk result (out.new.items ≡ out.old.items ++ simple (map_text map.now ++ (token (codes "=") ++ agg_text agg.now))) }
{
    write_map(out, map)?;
    write_token(out, b"=")?;
    write_agg(out, agg)?;
    write_ending(out, b";")
}

fn write_assignment(
    out: &mut Vec<u8>,
    target: &Target,
    op: Option<BinOp>,
    value: &Expr,
) -> Result<(), Memory>
    ensures { OnOk result (out.new.items ≡ out.old.items ++ simple (target_text target.now ++ (token (assign_mark op) ++ expr_text value.now))) }
{
    write_target(out, target)?;
    write_assign(out, op)?;
    write_expr(out, value)?;
    write_ending(out, b";")
}

fn write_step_stmt(out: &mut Vec<u8>, step: &IncDec) -> Result<(), Memory>
    ensures { OnOk result (out.new.items ≡ out.old.items ++ simple (step_text step.now)) }
{
    write_step(out, step)?;
    write_ending(out, b";")
}

fn write_printf(out: &mut Vec<u8>, format: &[u8], values: &[Expr]) -> Result<(), Memory>
    ensures { OnOk result (out.new.items ≡ out.old.items ++ simple
        (call_text (codes "printf") (quoted_text format.now ++ marked (codes ",") (map expr_text values.now)))) }
{
    open_call(out, b"printf")?;
    write_quoted(out, format)?;
    write_marked(out, b",", values)?;
    close_call(out)
}

/// Writes a number behind a comma, where there is one.
fn write_optional(out: &mut Vec<u8>, number: Option<i64>) -> Result<(), Memory>
    ensures { OnOk result (out.new.items ≡ out.old.items ++ optional_text number) }
{
    match number {
        None => Ok(()),
        Some(number) => {
            write_token(out, b",")?;
            write_number(out, number)
        }
    }
}

fn write_print(
    out: &mut Vec<u8>,
    map: &MapRef,
    top: Option<i64>,
    div: Option<i64>,
) -> Result<(), Memory>
    ensures { OnOk result (out.new.items ≡ out.old.items ++ simple (call_text (codes "print") (map_text map.now ++ (optional_text top ++ optional_text div)))) }
{
    open_call(out, b"print")?;
    write_map(out, map)?;
    write_optional(out, top)?;
    write_optional(out, div)?;
    close_call(out)
}

fn write_delete_key(out: &mut Vec<u8>, map: &MapRef, key: &Expr) -> Result<(), Memory>
    ensures { OnOk result (out.new.items ≡ out.old.items ++ simple
        (call_text (codes "delete") (map_text map.now ++ (token (codes ",") ++ expr_text key.now)))) }
{
    open_call(out, b"delete")?;
    write_map(out, map)?;
    write_token(out, b",")?;
    write_expr(out, key)?;
    close_call(out)
}

/// Writes a call with a map alone.
fn write_map_call(out: &mut Vec<u8>, word: &[u8], map: &MapRef) -> Result<(), Memory>
    ensures { OnOk result (out.new.items ≡ out.old.items ++ simple (call_text word.now (map_text map.now))) }
{
    open_call(out, word)?;
    write_map(out, map)?;
    close_call(out)
}

/// Writes the end of a call that is a statement.
fn close_call(out: &mut Vec<u8>) -> Result<(), Memory>
    ensures { OnOk result (out.new.items ≡ out.old.items ++ simple (token (codes ")"))) }
{
    write_token(out, b")")?;
    write_ending(out, b";")
}

fn write_exit(out: &mut Vec<u8>) -> Result<(), Memory>
    ensures { OnOk result (out.new.items ≡ out.old.items ++ simple (call_text (codes "exit") [])) }
{
    open_call(out, b"exit")?;
    close_call(out)
}

fn write_word(out: &mut Vec<u8>, word: &[u8]) -> Result<(), Memory>
    ensures { OnOk result (out.new.items ≡ out.old.items ++ simple (token word.now)) }
{
    write_token(out, word)?;
    write_ending(out, b";")
}

/// Writes the head of an unrolled loop.
fn write_turns(out: &mut Vec<u8>, turns: i64) -> Result<(), Memory>
    ensures { OnOk result (out.new.items ≡ out.old.items ++ call_text (codes "unroll") (number_text turns)) }
{
    open_call(out, b"unroll")?;
    write_number(out, turns)?;
    write_token(out, b")")
}

#[cycle(stmt)]
fn write_kind(out: &mut Vec<u8>, kind: &StmtKind) -> Result<(), Memory>
    ensures { OnOk result (out.new.items ≡ out.old.items ++ kind_text kind.now) }
{
    match kind {
        StmtKind::SetAgg { map, agg, .. } => write_set_agg(out, map, agg),
        StmtKind::Assign { target, op, value } => write_assignment(out, target, *op, value),
        StmtKind::Step(step) => write_step_stmt(out, step),
        StmtKind::Printf { format, values, .. } => {
            write_printf(out, format.as_slice(), values.as_slice())
        }
        StmtKind::Print { map, top, div } => write_print(out, map, *top, *div),
        StmtKind::Clear(map) => write_map_call(out, b"clear", map),
        StmtKind::Zero(map) => write_map_call(out, b"zero", map),
        StmtKind::Delete(map) => write_map_call(out, b"delete", map),
        StmtKind::DeleteKey { map, key } => write_delete_key(out, map, key),
        StmtKind::Exit => write_exit(out),
        StmtKind::Break => write_word(out, b"break"),
        StmtKind::Continue => write_word(out, b"continue"),
        StmtKind::Return => write_word(out, b"return"),
        StmtKind::If { arms, otherwise } => {
            let mut word: &[u8] = b"";
            for arm in arms.as_slice() {
                out.extend_from_slice(word)?;
                write_call(out, b"if", &arm.0)?;
                write_block(out, &arm.1)?;
                word = b"else ";
            }
            write_otherwise(out, otherwise)
        }
        StmtKind::While { condition, block } => {
            write_call(out, b"while", condition)?;
            write_block(out, block)
        }
        StmtKind::Unroll { turns, block } => {
            write_turns(out, *turns)?;
            write_block(out, block)
        }
    }
}

/// Writes the block of `else`, where there is one.
#[cycle(stmt)]
fn write_otherwise(out: &mut Vec<u8>, block: &Option<Block>) -> Result<(), Memory>
    ensures { OnOk result (out.new.items ≡ out.old.items ++ otherwise_text (option_map block_text block.now)) }
{
    match block {
        None => Ok(()),
        Some(block) => {
            write_token(out, b"else")?;
            write_block(out, block)
        }
    }
}

/// Writes a block.
#[cycle(stmt)]
pub(crate) fn write_block(out: &mut Vec<u8>, block: &Block) -> Result<(), Memory>
    ensures { OnOk result (out.new.items ≡ out.old.items ++ block_text block.now) }
{
    write_ending(out, b"{")?;
    for stmt in block.stmts.as_slice() {
        write_kind(out, &stmt.kind)?;
    }
    write_ending(out, b"}")
}
