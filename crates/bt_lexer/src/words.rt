// Words, attach tokens, and the names of maps and variables.
ghost use Rattle.std.specs.Prelude.{◌≡◌, ◌+◌, ◌<◌, ◌≤◌, length, take_while, IfOk, true};
ghost use Rattle.bt_core.specs.Bytes.{is_letter, is_word_byte};
ghost use Rattle.bt_lexer.specs.Bytes.{begins, is_attach_byte};
ghost use Rattle.bt_lexer.specs.Scan.{attach_len, is_attach_word, is_colon, map_piece, name_len, var_piece, word_len, word_piece, IsWithin};
ghost use Rattle.bt_lexer.specs.Tokens.{Gives};

use crate::bytes::begins_with_letter;
use crate::error::LexError;
use crate::piece::Piece;
use crate::token::TokenKind;
use bt_core::bytes::is_word_byte;
use bt_core::items::Items;
use std::alloc::Global;

/// How many letters and digits stand at the front.
fn word_len(bytes: &[u8]) -> usize
    ensures value { result ≡ word_len bytes.now }
    ensures within { result ≤ length bytes.now }
{
    bytes.iter().take_while(|b| is_word_byte(**b)).count()
}

/// Whether a byte may stand in an attach token behind its first word.
fn is_attach_byte(b: u8) -> bool
    ensures { result ≡ is_attach_byte b }
{
    is_word_byte(b) || matches!(b, b'-' | b'*' | b':')
}

/// How many bytes of an attach token stand at the front.
fn attach_len(bytes: &[u8]) -> usize
    ensures value { result ≡ attach_len bytes.now }
    ensures within { result ≤ length bytes.now }
{
    bytes.iter().take_while(|b| is_attach_byte(**b)).count()
}

/// Whether an attach token begins with this word.
fn is_attach_word(word: &[u8]) -> bool
    ensures { result ≡ is_attach_word word.now }
{
    word == b"tracepoint".as_slice()
        || word == b"t".as_slice()
        || word == b"interval".as_slice()
        || word == b"i".as_slice()
}

fn begins_with_colon(bytes: &[u8]) -> bool
    ensures { result ≡ begins is_colon bytes.now }
{
    matches!(bytes, [b':', ..])
}

/// The word or attach token at the front of bytes that begin with a letter.
#[tactic(auto, unfolding(crate::specs::Scan::word_piece))]
pub fn word_piece(alloc: Global, bytes: &[u8]) -> Result<Piece, LexError>
    requires { begins is_letter bytes.now ≡ true }
    ensures value { Gives result (word_piece bytes.now) }
    ensures within { IfOk result (λ piece. IsWithin (length bytes.now) piece) }
{
    let len = word_len(bytes);
    let (word, rest) = bytes.split_at(len);
    if is_attach_word(word) && begins_with_colon(rest) {
        let len = len + attach_len(rest);
        let point = Items::from_slice(alloc, &bytes[..len])?;
        Ok(Piece::token(TokenKind::Attach(point), len))
    } else {
        let word = Items::from_slice(alloc, word)?;
        Ok(Piece::token(TokenKind::Word(word), len))
    }
}

/// The map name at the front of bytes that begin with `@`.
#[tactic(auto, unfolding(crate::specs::Scan::map_piece))]
pub fn map_piece(alloc: Global, bytes: &[u8]) -> Result<Piece, LexError>
    requires { 0 < length bytes.now }
    ensures value { Gives result (map_piece bytes.now) }
    ensures within { IfOk result (λ piece. IsWithin (length bytes.now) piece) }
{
    let len = 1 + name_len(&bytes[1..]);
    let name = Items::from_slice(alloc, &bytes[..len])?;
    Ok(Piece::token(TokenKind::Map(name), len))
}

/// How many bytes of a word stand at the front, 0 where none begins.
fn name_len(bytes: &[u8]) -> usize
    ensures value { result ≡ name_len bytes.now }
    ensures within { result ≤ length bytes.now }
{
    if begins_with_letter(bytes) {
        word_len(bytes)
    } else {
        0
    }
}

/// The variable name at the front of bytes that begin with `$`.
#[tactic(auto, unfolding(crate::specs::Scan::var_piece))]
pub fn var_piece(alloc: Global, offset: u64, bytes: &[u8]) -> Result<Piece, LexError>
    requires { 0 < length bytes.now }
    ensures value { Gives result (var_piece offset bytes.now) }
    ensures within { IfOk result (λ piece. IsWithin (length bytes.now) piece) }
{
    let name = &bytes[1..];
    if !begins_with_letter(name) {
        return Err(LexError::BadChar(offset));
    }
    let len = 1 + word_len(name);
    let name = Items::from_slice(alloc, &bytes[..len])?;
    Ok(Piece::token(TokenKind::Var(name), len))
}
