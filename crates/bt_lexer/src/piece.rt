// What stands at a place of a text.
ghost use Rattle.std.specs.Prelude.{◌≡◌, ◌+◌, ◌<◌, ◌^◌, ◌∷◌, Some, None, length, IfOk};
ghost use Rattle.bt_lexer.specs.Scan.{piece_at, slash_piece, IsWithin};
ghost use Rattle.bt_lexer.specs.Tokens.{Gives};

use crate::error::LexError;
use crate::marks::mark_piece;
use crate::numbers::number_piece;
use crate::separators::{comment_piece, line_comment};
use crate::strings::string_piece;
use crate::token::TokenKind;
use crate::words::{map_piece, var_piece, word_piece};
use std::alloc::Global;

/// A token, or a separator where it has no kind, and how many bytes it takes.
#[derive(Drop)]
pub struct Piece {
    pub kind: Option<TokenKind>,
    pub len: usize,
}

impl Piece {
    /// A token of so many bytes.
    pub fn token(kind: TokenKind, len: usize) -> Piece
        ensures kind { result.kind ≡ Some kind }
        ensures len { result.len ≡ len }
    {
        Piece {
            kind: Some(kind),
            len,
        }
    }

    /// A separator of so many bytes.
    pub fn separator(len: usize) -> Piece
        ensures kind { result.kind ≡ None }
        ensures len { result.len ≡ len }
    {
        Piece { kind: None, len }
    }
}

/// The piece at the front of the bytes, or the fault that begins there. So many bytes stand before
/// it.
#[tactic(auto, unfolding(crate::specs::Scan::piece_at))]
pub fn piece_at(alloc: Global, offset: u64, bytes: &[u8]) -> Result<Piece, LexError>
    requires some { 0 < length bytes.now }
    requires room { offset + length bytes.now < 2 ^ 32 }
    ensures value { Gives result (piece_at offset bytes.now) }
    ensures within { IfOk result (λ piece. IsWithin (length bytes.now) piece) }
{
    match bytes {
        [b' ' | b'\t' | b'\n' | b'\r', ..] => Ok(Piece::separator(1)),
        [b'a'..=b'z' | b'A'..=b'Z' | b'_', ..] => word_piece(alloc, bytes),
        [b'0'..=b'9', ..] => number_piece(offset, bytes),
        [b'@', ..] => map_piece(alloc, bytes),
        [b'$', ..] => var_piece(alloc, offset, bytes),
        [b'"', rest @ ..] => string_piece(alloc, offset, rest),
        [b'/', rest @ ..] => slash_piece(alloc, offset, bytes, rest),
        _ => mark_piece(alloc, offset, bytes),
    }
}

/// The comment or mark at the front of bytes that begin with `/`, where the rest stands behind it.
#[tactic(auto, unfolding(crate::specs::Scan::slash_piece))]
fn slash_piece(alloc: Global, offset: u64, bytes: &[u8], rest: &[u8]) -> Result<Piece, LexError>
    requires rest { bytes.now ≡ 47 ∷ rest.now }
    requires room { offset + length bytes.now < 2 ^ 32 }
    ensures value { Gives result (slash_piece offset rest.now) }
    ensures within { IfOk result (λ piece. IsWithin (length bytes.now) piece) }
{
    match rest {
        [b'/', line @ ..] => Ok(line_comment(line)),
        [b'*', body @ ..] => comment_piece(offset, body),
        _ => mark_piece(alloc, offset, bytes),
    }
}
