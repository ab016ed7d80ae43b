// Numbers: decimal, hexadecimal and octal.
ghost use Rattle.std.specs.Prelude.{◌≡◌, ◌+◌, ◌<◌, ◌≤◌, ◌^◌, length, Some, IfOk, true};
ghost use Rattle.std.specs.Char.{digit_value};
ghost use Rattle.bt_core.specs.Bytes.{is_digit};
ghost use Rattle.bt_lexer.specs.Bytes.{begins};
ghost use Rattle.bt_lexer.specs.Scan.{digits, fits, number_at, number_piece, pushed, IsWithin};
ghost use Rattle.bt_lexer.specs.Tokens.{Gives};

use crate::bytes::begins_with_word_byte;
use crate::error::LexError;
use crate::piece::Piece;
use crate::token::TokenKind;

/// Digits: their value, or none where it is above 2^64 - 1, and how many bytes they take.
#[derive(Clone, Copy)]
pub struct Digits {
    pub value: Option<u64>,
    pub len: usize,
}

/// The value of a digit, where letters count from ten, and 36 for any other byte.
fn digit_value(b: u8) -> u64
    ensures value { result ≡ digit_value b }
    ensures small { result ≤ 36 }
{
    match char::from(b).to_digit(36) {
        Some(digit) => digit as u64,
        None => 36,
    }
}

/// Whether a digit of the base stands at the front.
fn begins_with_digit(bytes: &[u8], base: u64) -> bool
    ensures { result ≡ begins (fits base) bytes.now }
{
    match bytes {
        [] => false,
        [b, ..] => digit_value(*b) < base,
    }
}

/// A value with one more digit, or none where it is above 2^64 - 1.
fn push_digit(value: Option<u64>, base: u64, digit: u64) -> Option<u64>
    ensures { result ≡ pushed base digit value }
{
    value?.checked_mul(base)?.checked_add(digit)
}

/// The digits at the front. A `_` counts to them between two digits.
fn leading_digits(bytes: &[u8], base: u64) -> Digits
    requires { begins (fits base) bytes.now ≡ true }
    ensures value { result ≡ digits base (Some 0) 0 bytes.now }
    ensures within { (0 < result.len) × (result.len ≤ length bytes.now) }
{
    let mut value = Some(0);
    for (i, b) in bytes.iter().enumerate() {
        let digit = digit_value(*b);
        if digit < base {
            value = push_digit(value, base, digit);
        } else if *b != b'_' || !begins_with_digit(&bytes[i + 1..], base) {
            return Digits { value, len: i };
        }
    }
    Digits {
        value,
        len: bytes.len(),
    }
}

/// The longest number at the front of bytes that begin with a digit.
#[tactic(auto, unfolding(crate::specs::Scan::number_at))]
fn number_at(bytes: &[u8]) -> Digits
    requires { begins is_digit bytes.now ≡ true }
    ensures value { result ≡ number_at bytes.now }
    ensures within { (0 < result.len) × (result.len ≤ length bytes.now) }
{
    match bytes {
        [b'0', b'x', rest @ ..] if begins_with_digit(rest, 16) => {
            let found = leading_digits(rest, 16);
            Digits {
                value: found.value,
                len: found.len + 2,
            }
        }
        [b'0', ..] => leading_digits(bytes, 8),
        _ => leading_digits(bytes, 10),
    }
}

/// The number at the front of bytes that begin with a digit.
#[tactic(auto, unfolding(crate::specs::Scan::number_piece))]
pub fn number_piece(offset: u64, bytes: &[u8]) -> Result<Piece, LexError>
    requires digit { begins is_digit bytes.now ≡ true }
    requires room { offset + length bytes.now < 2 ^ 32 }
    ensures value { Gives result (number_piece offset bytes.now) }
    ensures within { IfOk result (λ piece. IsWithin (length bytes.now) piece) }
{
    let number = number_at(bytes);
    let Some(value) = number.value else {
        return Err(LexError::NumberTooLarge(offset));
    };
    if begins_with_word_byte(&bytes[number.len..]) {
        return Err(LexError::BadChar(offset + number.len as u64));
    }
    Ok(Piece::token(TokenKind::Number(value.cast_signed()), number.len))
}
