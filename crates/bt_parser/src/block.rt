// Blocks and the statements that have them.
ghost use Rattle.std.specs.Prelude.{◌<◌, ◌≤◌, OnOk, length};
ghost use Rattle.bt_parser.specs.Contract.{Reads};
ghost use Rattle.bt_grammar.specs.Form.{Arm, Body, Braced, Control};
ghost use Rattle.bt_grammar.specs.Reading.{read, reads};
ghost use Rattle.bt_grammar.specs.Rules.{a_number, in_parens};
ghost use Rattle.bt_parser.specs.Statements.{branches_by, ended_by, otherwise_by, stmt_by, unroll_by};
ghost use Rattle.bt_grammar.specs.Tokens.{items};

use crate::agg::in_parens;
use crate::answer::{added, until};
use crate::cursor::Cursor;
use crate::fault::Fault;
use crate::simple::simple;
use bt_ast::expr::Expr;
use bt_ast::stmt::{Block, Stmt, StmtKind};
use bt_core::beside::beside;
use bt_core::items::Items;
use bt_grammar::class::Class;
use std::alloc::Global;

/// A number in parentheses.
fn turns(tokens: &mut Cursor<'_>) -> Result<i64, Fault>
    ensures reads { Reads (read reads (in_parens a_number) (items tokens.old)) result tokens.new }
    ensures shorter { OnOk result (length tokens.new < length tokens.old) }
{
    tokens.expect(Class::OpenParen)?;
    let number = tokens.number();
    until(tokens, number, Class::CloseParen)
}

/// A condition in parentheses and a block.
#[cycle(block)]
fn arm(alloc: Global, tokens: &mut Cursor<'_>) -> Result<(Expr, Block), Fault>
    ensures reads { Reads (reads Arm (items tokens.old)) result tokens.new }
    ensures shorter { OnOk result (length tokens.new < length tokens.old) }
{
    let condition = in_parens(alloc, tokens)?;
    beside(condition, block(alloc, tokens))
}

/// The block behind an `else`, where one comes next.
#[cycle(block)]
fn otherwise(alloc: Global, tokens: &mut Cursor<'_>) -> Result<Option<Block>, Fault>
    ensures reads { Reads (otherwise_by (items tokens.old)) result tokens.new }
    ensures no_longer { OnOk result (length tokens.new ≤ length tokens.old) }
{
    if !tokens.sees(Class::ElseWord) {
        return Ok(None);
    }
    tokens.skip();
    Ok(Some(block(alloc, tokens)?))
}

/// The arms of an `if`, behind its word.
#[cycle(block)]
fn branches(alloc: Global, tokens: &mut Cursor<'_>) -> Result<StmtKind, Fault>
    ensures reads { Reads (branches_by (items tokens.old)) result tokens.new }
    ensures shorter { OnOk result (length tokens.new < length tokens.old) }
{
    let mut arms = added(Items::new(alloc), arm(alloc, tokens))?;
    while tokens.sees_else_if() {
        tokens.skip();
        tokens.skip();
        arms = added(arms, arm(alloc, tokens))?;
    }
    let (arms, otherwise) = beside(arms, otherwise(alloc, tokens))?;
    Ok(StmtKind::If { arms, otherwise })
}

/// An `unroll`.
#[cycle(block)]
fn unroll(alloc: Global, tokens: &mut Cursor<'_>) -> Result<Stmt, Fault>
    ensures reads { Reads (unroll_by (items tokens.old)) result tokens.new }
    ensures shorter { OnOk result (length tokens.new < length tokens.old) }
{
    let place = tokens.expect(Class::UnrollWord)?;
    let turns = turns(tokens)?;
    let block = block(alloc, tokens)?;
    let kind = StmtKind::Unroll { turns, block };
    Ok(Stmt { kind, place })
}

/// A statement with blocks.
#[cycle(block)]
fn control(alloc: Global, tokens: &mut Cursor<'_>) -> Result<Stmt, Fault>
    ensures reads { Reads (reads Control (items tokens.old)) result tokens.new }
    ensures shorter { OnOk result (length tokens.new < length tokens.old) }
{
    if tokens.sees(Class::IfWord) {
        let place = tokens.skip();
        let kind = branches(alloc, tokens)?;
        return Ok(Stmt { kind, place });
    }
    if tokens.sees(Class::WhileWord) {
        let place = tokens.skip();
        let (condition, block) = arm(alloc, tokens)?;
        let kind = StmtKind::While { condition, block };
        return Ok(Stmt { kind, place });
    }
    unroll(alloc, tokens)
}

/// A statement without blocks, with the semicolon behind it, which may be left out before a closing brace.
fn ended(alloc: Global, tokens: &mut Cursor<'_>) -> Result<Stmt, Fault>
    ensures reads { Reads (ended_by (items tokens.old)) result tokens.new }
    ensures shorter { OnOk result (length tokens.new < length tokens.old) }
{
    let stmt = simple(alloc, tokens)?;
    if tokens.sees(Class::Semicolon) {
        tokens.skip();
    } else if !tokens.sees(Class::CloseBrace) {
        return Err(Fault::Syntax);
    }
    Ok(stmt)
}

/// A statement of a block.
#[cycle(block)]
fn stmt(alloc: Global, tokens: &mut Cursor<'_>) -> Result<Stmt, Fault>
    ensures reads { Reads (stmt_by (items tokens.old)) result tokens.new }
    ensures shorter { OnOk result (length tokens.new < length tokens.old) }
{
    if tokens.begins_control() {
        control(alloc, tokens)
    } else {
        ended(alloc, tokens)
    }
}

/// The statements of a block and its closing brace.
#[cycle(block)]
fn body(alloc: Global, tokens: &mut Cursor<'_>) -> Result<Items<Stmt>, Fault>
    ensures reads { Reads (reads Body (items tokens.old)) result tokens.new }
    ensures shorter { OnOk result (length tokens.new < length tokens.old) }
{
    let mut stmts = Items::new(alloc);
    while !tokens.sees(Class::CloseBrace) {
        stmts = added(stmts, stmt(alloc, tokens))?;
    }
    tokens.skip();
    Ok(stmts)
}

/// A block.
#[cycle(block)]
pub fn block(alloc: Global, tokens: &mut Cursor<'_>) -> Result<Block, Fault>
    ensures reads { Reads (reads Braced (items tokens.old)) result tokens.new }
    ensures shorter { OnOk result (length tokens.new < length tokens.old) }
{
    let place = tokens.expect(Class::OpenBrace)?;
    let stmts = body(alloc, tokens)?;
    Ok(Block { stmts, place })
}
