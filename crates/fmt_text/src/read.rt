// Reading a format.
ghost use Rattle.std.specs.Prelude.{◌≡◌, ◌≢◌, ◌⊎◌, ℕ, List, Ok, Err, IfErr, IfOk, MatchResult};
ghost use Rattle.fmt_text.specs.declared.piece.Piece.{Piece as PieceValue};
ghost use Rattle.bt_core.specs.Want.{out_of_memory};
ghost use Rattle.fmt_text.specs.Formats.{IsFormat, IsBadAt};
ghost use Rattle.fmt_text.specs.Reading.{IsFault};

use crate::conversion::front_of;
use crate::piece::{FormatFault, Piece};
use crate::pieces::Pieces;
use bt_core::items::Items;
use std::alloc::Global;

/// The pieces of a format, as the bpftrace language has it in `printf`, in time linear in its bytes.
///
/// # Errors
///
/// [`FormatFault::BadAt`] with the offset of the first `%` that begins neither a conversion nor `%%`.
/// [`FormatFault::Memory`] may come at any text.
pub fn read_format(alloc: Global, text: &[u8]) -> Result<Items<Piece>, FormatFault>
    // What is read are the format's pieces.
    ensures found { IfOk result (λ pieces. IsFormat text.now pieces) }
    // The pieces of a format are read, unless memory runs out.
    ensures only { (pieces : List PieceValue) → IsFormat text.now pieces → (result ≡ Ok pieces) ⊎ (result ≡ Err (FormatFault.Memory out_of_memory)) }
    // Any other error tells the first bad place of the text.
    ensures fault { IfErr result (λ e. e ≢ FormatFault.Memory out_of_memory → IsFault text.now e) }
    // The first bad place is told, unless memory runs out.
    ensures refused { (offset : ℕ) → IsBadAt text.now offset → (result ≡ Err (FormatFault.BadAt offset)) ⊎ (result ≡ Err (FormatFault.Memory out_of_memory)) }
{
    read(alloc, text)
}

/// The pieces of a format, or what is wrong with it.
fn read(alloc: Global, text: &[u8]) -> Result<Items<Piece>, FormatFault>
    ensures { MatchResult result (IsFormat text.now) (IsFault text.now) }
{
    let mut pieces = Pieces::new(alloc);
    let mut rest = text;
    while let Some((front, others)) = front_of(rest) {
        pieces.add(alloc, front)?;
        rest = others;
    }
    if !rest.is_empty() {
        return Err(FormatFault::BadAt((text.len() - rest.len()) as u64));
    }
    Ok(pieces.close()?)
}
