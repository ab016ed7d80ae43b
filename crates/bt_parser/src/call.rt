// Calls and jumps.
ghost use Rattle.std.specs.Prelude.{◌≡◌, ◌<◌, ◌≤◌, [], OnOk, length, true};
ghost use Rattle.bt_parser.specs.Contract.{Reads};
ghost use Rattle.bt_grammar.specs.Form.{CallOrJump, Delete, Print, Printf};
ghost use Rattle.bt_parser.specs.Mirror.{values_on};
ghost use Rattle.bt_grammar.specs.Reading.{read, reads};
ghost use Rattle.bt_parser.specs.Statements.{behind_word, closed_keys_by, closed_limits_by, closed_values_by, deleted_by, deletion, exit_by, in_parens_map, limit_form, limits_form, map_form};
ghost use Rattle.bt_grammar.specs.Tables.{is_call};
ghost use Rattle.bt_grammar.specs.Tokens.{items};

use crate::answer::until;
use crate::cursor::{Cursor, Named};
use crate::expr::{value_until, values};
use crate::fault::Fault;
use bt_ast::expr::{Expr, MapRef};
use bt_ast::stmt::{Stmt, StmtKind};
use bt_core::beside::beside;
use bt_core::items::Items;
use bt_grammar::class::Class;
use std::alloc::Global;

/// A map that is named as a whole.
fn whole_map(alloc: Global, tokens: &mut Cursor<'_>) -> Result<MapRef, Fault>
    ensures reads { Reads (read reads map_form (items tokens.old)) result tokens.new }
    ensures shorter { OnOk result (length tokens.new < length tokens.old) }
{
    let Named { bytes, place } = tokens.named(alloc, Class::MapName)?;
    Ok(MapRef {
        name: bytes,
        keys: Items::new(alloc),
        place,
    })
}

/// A map that is named as a whole, in parentheses.
fn map_in_parens(alloc: Global, tokens: &mut Cursor<'_>) -> Result<MapRef, Fault>
    ensures reads { Reads (read reads in_parens_map (items tokens.old)) result tokens.new }
    ensures shorter { OnOk result (length tokens.new < length tokens.old) }
{
    tokens.expect(Class::OpenParen)?;
    let map = whole_map(alloc, tokens);
    until(tokens, map, Class::CloseParen)
}

/// The values of a format, each behind a comma.
fn format_values(alloc: Global, tokens: &mut Cursor<'_>) -> Result<Items<Expr>, Fault>
    ensures reads { Reads (values_on [] (items tokens.old)) result tokens.new }
    ensures no_longer { OnOk result (length tokens.new ≤ length tokens.old) }
{
    let none = Items::new(alloc);
    if !tokens.sees(Class::Comma) {
        return Ok(none);
    }
    tokens.skip();
    values(alloc, tokens, none)
}

/// The values of a format and the closing parenthesis behind them.
fn closed_values(alloc: Global, tokens: &mut Cursor<'_>) -> Result<Items<Expr>, Fault>
    ensures reads { Reads (closed_values_by (items tokens.old)) result tokens.new }
    ensures shorter { OnOk result (length tokens.new < length tokens.old) }
{
    let values = format_values(alloc, tokens);
    until(tokens, values, Class::CloseParen)
}

/// What is printed by a format, behind the word `printf`.
fn printf(alloc: Global, tokens: &mut Cursor<'_>) -> Result<StmtKind, Fault>
    ensures reads { Reads (reads Printf (items tokens.old)) result tokens.new }
    ensures shorter { OnOk result (length tokens.new < length tokens.old) }
{
    tokens.expect(Class::OpenParen)?;
    let Named { bytes, place } = tokens.named(alloc, Class::TextLiteral)?;
    let (bytes, values) = beside(bytes, closed_values(alloc, tokens))?;
    Ok(StmtKind::Printf {
        format: bytes,
        format_place: place,
        values,
    })
}

/// A number behind a comma, where a comma comes next.
fn limit(tokens: &mut Cursor<'_>) -> Result<Option<i64>, Fault>
    ensures reads { Reads (read reads limit_form (items tokens.old)) result tokens.new }
    ensures no_longer { OnOk result (length tokens.new ≤ length tokens.old) }
{
    if !tokens.sees(Class::Comma) {
        return Ok(None);
    }
    tokens.skip();
    Ok(Some(tokens.number()?))
}

/// The two limits of what is printed: how many values, and by what they are divided.
fn limits(tokens: &mut Cursor<'_>) -> Result<(Option<i64>, Option<i64>), Fault>
    ensures reads { Reads (read reads limits_form (items tokens.old)) result tokens.new }
    ensures no_longer { OnOk result (length tokens.new ≤ length tokens.old) }
{
    let Some(top) = limit(tokens)? else {
        return Ok((None, None));
    };
    let div = limit(tokens)?;
    Ok((Some(top), div))
}

/// The two limits of what is printed and the closing parenthesis behind them.
fn closed_limits(tokens: &mut Cursor<'_>) -> Result<(Option<i64>, Option<i64>), Fault>
    ensures reads { Reads (closed_limits_by (items tokens.old)) result tokens.new }
    ensures shorter { OnOk result (length tokens.new < length tokens.old) }
{
    let limits = limits(tokens);
    until(tokens, limits, Class::CloseParen)
}

/// Which map is printed, behind the word `print`.
fn print(alloc: Global, tokens: &mut Cursor<'_>) -> Result<StmtKind, Fault>
    ensures reads { Reads (reads Print (items tokens.old)) result tokens.new }
    ensures shorter { OnOk result (length tokens.new < length tokens.old) }
{
    tokens.expect(Class::OpenParen)?;
    let map = whole_map(alloc, tokens)?;
    let (map, (top, div)) = beside(map, closed_limits(tokens))?;
    Ok(StmtKind::Print { map, top, div })
}

/// What is deleted: a map's values, or that of one key, which stands in brackets or behind a comma.
fn delete(alloc: Global, tokens: &mut Cursor<'_>) -> Result<StmtKind, Fault>
    ensures reads { Reads (reads Delete (items tokens.old)) result tokens.new }
    ensures shorter { OnOk result (length tokens.new < length tokens.old) }
{
    tokens.expect(Class::OpenParen)?;
    let name = tokens.named(alloc, Class::MapName)?;
    let (name, which) = beside(name, deleted(alloc, tokens))?;
    Ok(deletion(alloc, name, which))
}

/// Which values of a map are deleted.
#[derive(Drop)]
enum DeletedKeys {
    /// That of one key.
    Key(Expr),
    /// That of the key with these parts, or all where there is none.
    Keys(Items<Expr>),
}

/// The parts of a key behind its bracket, the bracket behind them, and the closing parenthesis.
fn closed_keys(alloc: Global, tokens: &mut Cursor<'_>) -> Result<Items<Expr>, Fault>
    ensures reads { Reads (closed_keys_by (items tokens.old)) result tokens.new }
    ensures shorter { OnOk result (length tokens.new < length tokens.old) }
{
    let keys = values(alloc, tokens, Items::new(alloc));
    let keys = until(tokens, keys, Class::CloseBracket);
    until(tokens, keys, Class::CloseParen)
}

/// Which values are deleted, behind the name of their map: that of a key behind a comma or in brackets, or all.
fn deleted(alloc: Global, tokens: &mut Cursor<'_>) -> Result<DeletedKeys, Fault>
    ensures reads { Reads (deleted_by (items tokens.old)) result tokens.new }
    ensures shorter { OnOk result (length tokens.new < length tokens.old) }
{
    if tokens.sees(Class::Comma) {
        tokens.skip();
        let key = value_until(alloc, tokens, Class::CloseParen)?;
        return Ok(DeletedKeys::Key(key));
    }
    if tokens.sees(Class::OpenBracket) {
        tokens.skip();
        let keys = closed_keys(alloc, tokens)?;
        return Ok(DeletedKeys::Keys(keys));
    }
    tokens.expect(Class::CloseParen)?;
    Ok(DeletedKeys::Keys(Items::new(alloc)))
}

/// The deletion of values of a map of the name.
fn deletion(alloc: Global, name: Named, deleted: DeletedKeys) -> StmtKind
    ensures { result ≡ deletion name deleted }
{
    let Named { bytes: name, place } = name;
    match deleted {
        DeletedKeys::Key(key) => {
            let keys = Items::new(alloc);
            let map = MapRef { name, keys, place };
            StmtKind::DeleteKey { map, key }
        }
        DeletedKeys::Keys(keys) => StmtKind::Delete(MapRef { name, keys, place }),
    }
}

fn exit(tokens: &mut Cursor<'_>) -> Result<StmtKind, Fault>
    ensures reads { Reads (exit_by (items tokens.old)) result tokens.new }
    ensures shorter { OnOk result (length tokens.new < length tokens.old) }
{
    tokens.expect(Class::OpenParen)?;
    tokens.expect(Class::CloseParen)?;
    Ok(StmtKind::Exit)
}

/// What follows the first word of a call or jump.
fn behind_word(alloc: Global, tokens: &mut Cursor<'_>, class: Class) -> Result<StmtKind, Fault>
    requires { is_call class ≡ true }
    ensures reads { Reads (behind_word class (items tokens.old)) result tokens.new }
    ensures no_longer { OnOk result (length tokens.new ≤ length tokens.old) }
{
    match class {
        Class::PrintfWord => printf(alloc, tokens),
        Class::PrintWord => print(alloc, tokens),
        Class::ClearWord => Ok(StmtKind::Clear(map_in_parens(alloc, tokens)?)),
        Class::ZeroWord => Ok(StmtKind::Zero(map_in_parens(alloc, tokens)?)),
        Class::DeleteWord => delete(alloc, tokens),
        Class::ExitWord => exit(tokens),
        Class::BreakWord => Ok(StmtKind::Break),
        Class::ContinueWord => Ok(StmtKind::Continue),
        Class::ReturnWord => Ok(StmtKind::Return),
        _ => unreachable!(),
    }
}

/// A call or a jump.
pub fn call(alloc: Global, tokens: &mut Cursor<'_>) -> Result<Stmt, Fault>
    ensures reads { Reads (reads CallOrJump (items tokens.old)) result tokens.new }
    ensures shorter { OnOk result (length tokens.new < length tokens.old) }
{
    let Some(class) = tokens.call_word() else {
        return Err(Fault::Syntax);
    };
    let place = tokens.skip();
    let kind = behind_word(alloc, tokens, class)?;
    Ok(Stmt { kind, place })
}
