// Strings between quotes.
ghost use Rattle.std.specs.Prelude.{◌≡◌, ◌+◌, ◌<◌, ◌^◌, length, IfOk};
ghost use Rattle.bt_lexer.specs.Scan.{closed, escape_of, string_byte, string_piece, unclosed, IsWithin};
ghost use Rattle.bt_lexer.specs.Tokens.{Gives};

use crate::error::LexError;
use crate::piece::Piece;
use crate::token::TokenKind;
use bt_core::items::Items;
use bt_core::limits::STRING_TOKEN_BYTES;
use std::alloc::Global;

/// What one byte of a string does.
#[derive(Clone, Copy)]
pub enum StringByte {
    /// It closes the string.
    Close,
    /// It adds a byte to the text.
    Add(u8),
    /// It begins an escape.
    Escape,
    /// It ends the line.
    EndOfLine,
    /// It is a zero byte.
    Zero,
    /// It makes no escape with the backslash before it.
    BadEscape,
}

/// The byte that an escape stands for, by the byte behind the backslash.
fn escape_of(b: u8) -> Option<u8>
    ensures { result ≡ escape_of b }
{
    match b {
        b'n' => Some(b'\n'),
        b't' => Some(b'\t'),
        b'r' => Some(b'\r'),
        b'"' => Some(b'"'),
        b'\\' => Some(b'\\'),
        _ => None,
    }
}

/// What a byte of a string does, where a backslash stands before it or none.
fn string_byte(escaped: bool, b: u8) -> StringByte
    ensures { result ≡ string_byte escaped b }
{
    if escaped {
        return match escape_of(b) {
            None => StringByte::BadEscape,
            Some(c) => StringByte::Add(c),
        };
    }
    match b {
        b'"' => StringByte::Close,
        b'\n' => StringByte::EndOfLine,
        0 => StringByte::Zero,
        b'\\' => StringByte::Escape,
        _ => StringByte::Add(b),
    }
}

/// The string with this text, whose source takes so many bytes between the quotes.
fn closed(offset: u64, text: Vec<u8>, len: usize) -> Result<Piece, LexError>
    requires { len < 2 ^ 32 }
    ensures { result ≡ closed offset text.items len }
{
    if text.len() > STRING_TOKEN_BYTES {
        return Err(LexError::StringTooLong(offset));
    }
    let kind = TokenKind::Text(Items::of(text));
    Ok(Piece::token(kind, len + 2))
}

/// The string whose opening quote stands before these bytes.
pub fn string_piece(alloc: Global, offset: u64, bytes: &[u8]) -> Result<Piece, LexError>
    requires { offset + 1 + length bytes.now < 2 ^ 32 }
    ensures value { Gives result (string_piece offset bytes.now) }
    ensures within { IfOk result (λ piece. IsWithin (length bytes.now + 1) piece) }
{
    let mut text = Vec::new(alloc);
    let mut escaped = false;
    for (i, b) in bytes.iter().enumerate() {
        match string_byte(escaped, *b) {
            StringByte::Close => return closed(offset, text, i),
            StringByte::Add(c) => {
                text.push(c)?;
                escaped = false;
            }
            StringByte::Escape => escaped = true,
            StringByte::EndOfLine => return Err(LexError::OpenString(offset)),
            StringByte::Zero => return Err(LexError::BadChar(offset + 1 + i as u64)),
            StringByte::BadEscape => return Err(LexError::BadEscape(offset + i as u64)),
        }
    }
    unclosed(offset, bytes.len(), escaped)
}

/// The fault of a string that ends with the text.
fn unclosed(offset: u64, len: usize, escaped: bool) -> Result<Piece, LexError>
    requires { offset + len < 2 ^ 32 }
    ensures { result ≡ unclosed offset len escaped }
{
    if escaped {
        Err(LexError::BadEscape(offset + len as u64))
    } else {
        Err(LexError::OpenString(offset))
    }
}
