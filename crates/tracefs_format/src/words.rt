// The words of a declaration's type.
ghost use Rattle.std.specs.Prelude.{◌≡◌, ◌<◌, ◌∷◌, [], length};
ghost use Rattle.std.specs.List.{list_any};
ghost use Rattle.std.specs.Str.{bytes_eq};
ghost use Rattle.event_layout.specs.Bytes.{words};
ghost use Rattle.event_layout.specs.Declarations.{is_char_words, is_char_alone};

use crate::bytes::{ByteClass, split_beginning, without_front};

/// The first word, and what stands after it. Where there is no word, both are empty.
pub fn first_word(bytes: &[u8]) -> (&[u8], &[u8])
    ensures some { 0 < length result.0.now → words bytes.now ≡ result.0.now ∷ words result.1.now }
    ensures none { length result.0.now ≡ 0 → words bytes.now ≡ [] }
    ensures shorter { 0 < length result.0.now → length result.1.now < length bytes.now }
{
    split_beginning(without_front(bytes, ByteClass::Separator), ByteClass::Word)
}

/// Whether the bytes hold this word.
pub fn has_word(bytes: &[u8], word: &[u8]) -> bool
    ensures { result ≡ list_any (bytes_eq word.now) (words bytes.now) }
{
    let mut rest = bytes;
    loop {
        let (first, others) = first_word(rest);
        if first.is_empty() {
            return false;
        }
        if word == first {
            return true;
        }
        rest = others;
    }
}

/// Whether the words of the bytes are `char` or `const char`.
pub fn is_char_words(bytes: &[u8]) -> bool
    ensures { result ≡ is_char_words (words bytes.now) }
{
    let (first, rest) = first_word(bytes);
    if first == b"const".as_slice() {
        is_char_alone(rest)
    } else {
        is_char_alone(bytes)
    }
}

/// Whether `char` is the one word of the bytes.
fn is_char_alone(bytes: &[u8]) -> bool
    ensures { result ≡ is_char_alone (words bytes.now) }
{
    let (first, rest) = first_word(bytes);
    first == b"char".as_slice() && first_word(rest).0.is_empty()
}
