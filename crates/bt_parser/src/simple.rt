// Simple statements.
ghost use Rattle.std.specs.Prelude.{◌<◌, OnOk, length};
ghost use Rattle.bt_parser.specs.Contract.{Reads};
ghost use Rattle.bt_grammar.specs.Form.{Simple};
ghost use Rattle.bt_grammar.specs.Reading.{reads};
ghost use Rattle.bt_parser.specs.Statements.{map_stmt_by, var_stmt_by};
ghost use Rattle.bt_grammar.specs.Tokens.{items};

use crate::assign::{after_map, after_var};
use crate::call::call;
use crate::cursor::{Cursor, Named};
use crate::expr::{assignable, keyed};
use crate::fault::Fault;
use bt_ast::expr::{IncDec, VarRef};
use bt_ast::stmt::{Stmt, StmtKind};
use bt_grammar::class::Class;
use std::alloc::Global;

/// What a map at the front of a statement makes with what follows it.
fn map_stmt(alloc: Global, tokens: &mut Cursor<'_>) -> Result<Stmt, Fault>
    ensures reads { Reads (map_stmt_by (items tokens.old)) result tokens.new }
    ensures shorter { OnOk result (length tokens.new < length tokens.old) }
{
    let map = keyed(alloc, tokens)?;
    let place = map.place;
    let kind = after_map(alloc, tokens, map)?;
    Ok(Stmt { kind, place })
}

/// What a variable at the front of a statement makes with what follows it.
fn var_stmt(alloc: Global, tokens: &mut Cursor<'_>) -> Result<Stmt, Fault>
    ensures reads { Reads (var_stmt_by (items tokens.old)) result tokens.new }
    ensures shorter { OnOk result (length tokens.new < length tokens.old) }
{
    let Named { bytes, place } = tokens.named(alloc, Class::VarName)?;
    let var = VarRef { name: bytes, place };
    let kind = after_var(alloc, tokens, var)?;
    Ok(Stmt { kind, place })
}

/// A statement without blocks.
pub fn simple(alloc: Global, tokens: &mut Cursor<'_>) -> Result<Stmt, Fault>
    ensures reads { Reads (reads Simple (items tokens.old)) result tokens.new }
    ensures shorter { OnOk result (length tokens.new < length tokens.old) }
{
    if tokens.sees(Class::MapName) {
        return map_stmt(alloc, tokens);
    }
    if tokens.sees(Class::VarName) {
        return var_stmt(alloc, tokens);
    }
    let Some(plus) = tokens.step() else {
        return call(alloc, tokens);
    };
    let place = tokens.skip();
    let target = assignable(alloc, tokens)?;
    let kind = StmtKind::Step(IncDec {
        target,
        plus,
        prefix: true,
        place,
    });
    Ok(Stmt { kind, place })
}
