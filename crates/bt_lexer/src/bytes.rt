// Classes of bytes.
ghost use Rattle.std.specs.Prelude.{◌≡◌, length, take_while};
ghost use Rattle.bt_core.specs.Bytes.{is_letter, is_word_byte};
ghost use Rattle.bt_lexer.specs.Bytes.{begins, not_newline};

use bt_core::bytes::{is_letter, is_word_byte};

/// Whether a letter stands at the front.
pub fn begins_with_letter(bytes: &[u8]) -> bool
    ensures { result ≡ begins is_letter bytes.now }
{
    match bytes {
        [] => false,
        [b, ..] => is_letter(*b),
    }
}

/// Whether a letter or a digit stands at the front.
pub fn begins_with_word_byte(bytes: &[u8]) -> bool
    ensures { result ≡ begins is_word_byte bytes.now }
{
    match bytes {
        [] => false,
        [b, ..] => is_word_byte(*b),
    }
}

/// How many bytes stand before the end of the line.
pub fn line_len(bytes: &[u8]) -> usize
    ensures { result ≡ length (take_while not_newline bytes.now) }
{
    bytes.iter().take_while(|b| **b != b'\n').count()
}
