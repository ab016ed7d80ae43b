// Marks: operators and punctuation.
ghost use Rattle.std.specs.Prelude.{◌≡◌, ◌+◌, ◌<◌, ◌≤◌, ◌^◌, length, IfOk};
ghost use Rattle.bt_lexer.specs.Scan.{is_double, is_single, is_triple, mark_len, mark_piece, IsWithin};
ghost use Rattle.bt_lexer.specs.Tokens.{Gives};

use crate::error::LexError;
use crate::piece::Piece;
use crate::token::TokenKind;
use bt_core::items::Items;
use std::alloc::Global;

/// Whether a byte is a mark.
fn is_single(b: u8) -> bool
    ensures { result ≡ is_single b }
{
    b"{}()[],;.=+-*/%&|^~!<>?:".contains(&b)
}

/// Whether two bytes are a mark.
fn is_double(b: u8, c: u8) -> bool
    ensures { result ≡ is_double b c }
{
    match c {
        b'=' => b"+-*/%&|^<>=!".contains(&b),
        b'>' => b == b'-' || b == b'>',
        _ => b == c && b"+-<&|".contains(&b),
    }
}

/// Whether three bytes are a mark.
fn is_triple(b: u8, c: u8, d: u8) -> bool
    ensures { result ≡ is_triple b c d }
{
    d == b'=' && b == c && (b == b'<' || b == b'>')
}

/// How many bytes the longest mark at the front has, or 0 where none stands there.
#[tactic(auto, unfolding(crate::specs::Scan::mark_len))]
fn mark_len(bytes: &[u8]) -> usize
    ensures value { result ≡ mark_len bytes.now }
    ensures within { result ≤ length bytes.now }
{
    match bytes {
        [b, c, d, ..] if is_triple(*b, *c, *d) => 3,
        [b, c, ..] if is_double(*b, *c) => 2,
        [b, ..] if is_single(*b) => 1,
        _ => 0,
    }
}

/// The longest mark at the front of the bytes.
pub fn mark_piece(alloc: Global, offset: u64, bytes: &[u8]) -> Result<Piece, LexError>
    ensures value { Gives result (mark_piece offset bytes.now) }
    ensures within { IfOk result (λ piece. IsWithin (length bytes.now) piece) }
{
    let len = mark_len(bytes);
    if len == 0 {
        return Err(LexError::BadChar(offset));
    }
    let mark = Items::from_slice(alloc, &bytes[..len])?;
    Ok(Piece::token(TokenKind::Mark(mark), len))
}
