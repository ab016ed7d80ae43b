// Calls of `printf`.
ghost use Rattle.std.specs.Prelude.{◌≡◌, IfOk, OnOk, Some, map, not};
ghost use Rattle.fmt_text.specs.Deciding.{format_pieces};
ghost use Rattle.typed_tree.specs.Parts.{key_shapes, made_of, stmt_parts};
ghost use Rattle.typed_tree.specs.Scope.{takes};
ghost use Rattle.expr_types.specs.declared.fault.Rule.TheVariants.{BadFormat};
ghost use Rattle.expr_types.specs.Known.{call_at, with_call};
ghost use Rattle.expr_types.specs.Judge.{Refuses};
ghost use Rattle.expr_types.specs.Rules.{breaks};
ghost use Rattle.expr_types.specs.Walk.{of_expr};
ghost use Rattle.bt_types.specs.Told.{printf_told};
ghost use Rattle.bt_types.specs.Done.{DoesIn};

use bt_ast::expr::Expr;
use bt_core::items::Items;
use bt_core::memory::Memory;
use bt_core::place::Place;
use expr_types::expr::check_all;
use expr_types::fault::{Rule, TypeError};
use expr_types::known::Known;
use expr_types::maps::shapes;
use expr_types::rules::{broken, same_shapes};
use fmt_text::arguments::argument_shapes;
use fmt_text::piece::{FormatFault, Piece};
use fmt_text::read::read_format;
use std::alloc::Global;
use typed_tree::expr::AnyExpr;
use typed_tree::stmt::TypedStmt;

/// The pieces of a text that is a format.
fn pieces_of(alloc: Global, text: &[u8]) -> Result<Option<Items<Piece>>, Memory>
    ensures { IfOk result (λ pieces. pieces ≡ format_pieces text.now) }
{
    match read_format(alloc, text) {
        Ok(pieces) => Ok(Some(pieces)),
        Err(FormatFault::BadAt(_)) => Ok(None),
        Err(FormatFault::Memory(memory)) => Err(memory),
    }
}

/// Whether these are the arguments that a format wants.
fn takes(alloc: Global, pieces: &[Piece], values: &[AnyExpr]) -> Result<bool, Memory>
    ensures { IfOk result (λ yes. yes ≡ takes (Some pieces.now) (key_shapes (map made_of values.now))) }
{
    let wanted = argument_shapes(alloc, pieces)?;
    let given = shapes(alloc, values)?;
    Ok(same_shapes(wanted.as_slice(), given.as_slice()))
}

/// The number of a call of `printf`.
///
/// # Errors
///
/// [`Rule::BadFormat`] at the place, where the text is no format or its arguments are others.
fn check_format(
    alloc: Global,
    known: &mut Known,
    format: &Items<u8>,
    place: Place,
    values: &Items<AnyExpr>,
) -> Result<u32, TypeError>
    ensures refuses { Refuses (breaks (not (takes (format_pieces format.now) (key_shapes (map made_of values.now)))) BadFormat) place result }
    ensures learned { OnOk result (known.new ≡ with_call known.old format.now place) }
    ensures numbered { IfOk result (λ number. number ≡ call_at format.now place known.new.printed) }
{
    match pieces_of(alloc, format.as_slice())? {
        None => Err(broken(Rule::BadFormat, place)),
        Some(pieces) => {
            if !takes(alloc, pieces.as_slice(), values.as_slice())? {
                return Err(broken(Rule::BadFormat, place));
            }
            Ok(known.call(alloc, format, place, pieces)?)
        }
    }
}

/// `printf(format, values)`: the values, and then the format.
pub(crate) fn check_printf(
    alloc: Global,
    known: &mut Known,
    format: &Items<u8>,
    place: Place,
    values: &[Expr],
) -> Result<TypedStmt, TypeError>
    ensures { DoesIn (printf_told format.now place (map of_expr values.now)) stmt_parts known.old known.new result }
{
    let values = check_all(alloc, known, values)?;
    let format = check_format(alloc, known, format, place, &values)?;
    Ok(TypedStmt::Printf { format, values })
}
