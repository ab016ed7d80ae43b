// The texts of calls and aggregations.
ghost use Rattle.std.specs.Prelude.{◌≡◌, ◌++◌, OnOk, codes};
ghost use Rattle.ast_text.specs.Words.{token, number_text};
ghost use Rattle.ast_text.specs.Exprs.{expr_text};
ghost use Rattle.ast_text.specs.Stmts.{agg_text, call_text};

use crate::words::{gathering_word, write_number, write_token};
use crate::write_expr::write_expr;
use bt_ast::expr::Expr;
use bt_ast::stmt::AggCall;
use bt_core::memory::Memory;

/// Writes a word and the parenthesis behind it.
pub(crate) fn open_call(out: &mut Vec<u8>, word: &[u8]) -> Result<(), Memory>
    ensures { OnOk result (out.new.items ≡ out.old.items ++ (token word.now ++ token (codes "("))) }
{
    write_token(out, word)?;
    write_token(out, b"(")
}

/// Writes a word with an expression in parentheses.
pub(crate) fn write_call(out: &mut Vec<u8>, word: &[u8], argument: &Expr) -> Result<(), Memory>
    ensures { OnOk result (out.new.items ≡ out.old.items ++ call_text word.now (expr_text argument.now)) }
{
    open_call(out, word)?;
    write_expr(out, argument)?;
    write_token(out, b")")
}

/// Writes a number behind a comma.
fn write_bound(out: &mut Vec<u8>, number: i64) -> Result<(), Memory>
    ensures { OnOk result (out.new.items ≡ out.old.items ++ (token (codes ",") ++ number_text number)) }
{
    write_token(out, b",")?;
    write_number(out, number)
}

/// Writes an aggregation.
pub(crate) fn write_agg(out: &mut Vec<u8>, agg: &AggCall) -> Result<(), Memory>
    ensures { OnOk result (out.new.items ≡ out.old.items ++ agg_text agg.now) }
{
    match agg {
        AggCall::Count => {
            open_call(out, b"count")?;
            write_token(out, b")")
        }
        AggCall::Gather { function, number } => {
            write_call(out, gathering_word(*function), number)
        }
        AggCall::Lhist {
            number,
            min,
            max,
            step,
        } => {
            open_call(out, b"lhist")?;
            write_expr(out, number)?;
            write_bound(out, *min)?;
            write_bound(out, *max)?;
            write_bound(out, *step)?;
            write_token(out, b")")
        }
    }
}
