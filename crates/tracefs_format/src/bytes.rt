// Classes of bytes, and cuts of byte lists.
ghost use Rattle.std.specs.Prelude.{◌≡◌, ◌==◌, ◌<◌, ◌≤◌, ◌++◌, length, position, Option, OnSome, IfSome};
ghost use Rattle.event_layout.specs.Bytes.{without_front, without_end, longest_beginning, longest_ending, stripped};
ghost use Rattle.tracefs_format.specs.Classes.{is_in};
ghost use Rattle.event_layout.specs.Bytes.{cut_at, before_last, after, labelled, number_in, flag_in};
ghost use Rattle.tracefs_format.specs.Classes.{Finds};

use bt_core::bytes::{is_digit, is_word_byte};

/// A class of bytes.
#[derive(Clone, Copy)]
pub enum ByteClass {
    /// A space or a tab.
    Blank,
    /// What is passed over at the end of a line: blanks and carriage returns.
    LineEnd,
    /// A letter or a digit, where `_` is a letter.
    Word,
    /// What stands between words.
    Separator,
}

impl ByteClass {
    /// Whether a byte is of this class.
    pub fn has(self, byte: u8) -> bool
        ensures { result ≡ is_in self byte }
    {
        match self {
            ByteClass::Blank => byte == b' ' || byte == b'\t',
            ByteClass::LineEnd => byte == b' ' || byte == b'\t' || byte == b'\r',
            ByteClass::Word => is_word_byte(byte),
            ByteClass::Separator => !is_word_byte(byte),
        }
    }
}

/// The bytes without those of a class at the front.
pub fn without_front(bytes: &[u8], class: ByteClass) -> &[u8]
    ensures { result.now ≡ without_front (is_in class) bytes.now }
{
    let mut rest = bytes;
    while let [first, others @ ..] = rest {
        if !class.has(*first) {
            return rest;
        }
        rest = others;
    }
    rest
}

/// The longest beginning whose bytes are all of a class, and what stands after it.
pub fn split_beginning(bytes: &[u8], class: ByteClass) -> (&[u8], &[u8])
    ensures beginning { result.0.now ≡ longest_beginning (is_in class) bytes.now }
    ensures rest { result.1.now ≡ without_front (is_in class) bytes.now }
{
    let rest = without_front(bytes, class);
    let (beginning, _) = bytes.split_at(bytes.len() - rest.len());
    (beginning, rest)
}

/// The bytes without those of a class at the end.
pub fn without_end(bytes: &[u8], class: ByteClass) -> &[u8]
    ensures { result.now ≡ without_end (is_in class) bytes.now }
{
    let mut rest = bytes;
    while let [others @ .., last] = rest {
        if !class.has(*last) {
            return rest;
        }
        rest = others;
    }
    rest
}

/// The longest ending whose bytes are all of a class, and what stands before it.
pub fn split_ending(bytes: &[u8], class: ByteClass) -> (&[u8], &[u8])
    ensures stem { result.0.now ≡ without_end (is_in class) bytes.now }
    ensures ending { result.1.now ≡ longest_ending (is_in class) bytes.now }
{
    let stem = without_end(bytes, class);
    bytes.split_at(stem.len())
}

/// The bytes without the blanks at both ends.
pub fn stripped(bytes: &[u8]) -> &[u8]
    ensures { result.now ≡ stripped bytes.now }
{
    without_front(without_end(bytes, ByteClass::Blank), ByteClass::Blank)
}

/// What stands before and after the first such byte, or `None` where there is none.
pub fn cut_at(bytes: &[u8], byte: u8) -> Option<(&[u8], &[u8])>
    ensures { Finds (λ parts. (parts.0.now, parts.1.now)) result (cut_at byte bytes.now) }
{
    match first_place(bytes, byte) {
        Some(place) => Some((&bytes[..place], &bytes[place + 1..])),
        None => None,
    }
}

/// The place of the first such byte, counted from 0.
fn first_place(bytes: &[u8], byte: u8) -> Option<usize>
    ensures { result ≡ position (λ b. b == byte) bytes.now }
{
    bytes.iter().position(|b| *b == byte)
}

/// What stands before the last such byte, or `None` where there is none.
pub fn before_last(bytes: &[u8], byte: u8) -> Option<&[u8]>
    ensures { Finds (λ front. front.now) result (before_last byte bytes.now) }
{
    let mut rest = bytes;
    while let [others @ .., last] = rest {
        if *last == byte {
            return Some(others);
        }
        rest = others;
    }
    None
}

/// What stands after a label that the bytes begin with, or `None` where they begin otherwise.
pub fn after<'a>(bytes: &'a [u8], label: &[u8]) -> Option<&'a [u8]>
    ensures { Finds (λ rest. rest.now) result (after label.now bytes.now) }
{
    bytes.strip_prefix(label)
}

/// What stands after a label, without the blanks round it, or `None` where the bytes begin otherwise.
/// Blanks may stand before the label.
pub fn labelled<'a>(part: &'a [u8], label: &[u8]) -> Option<&'a [u8]>
    ensures { Finds (λ value. value.now) result (labelled label.now part.now) }
{
    match after(stripped(part), label) {
        Some(rest) => Some(stripped(rest)),
        None => None,
    }
}

/// The number that bytes spell in decimal digits, or `None` where they spell none or a greater one.
pub fn number_in(bytes: &[u8], greatest: u32) -> Option<u32>
    ensures { result ≡ number_in greatest bytes.now }
{
    if bytes.is_empty() {
        return None;
    }
    let mut value = 0u64;
    for byte in bytes {
        if !is_digit(*byte) {
            return None;
        }
        value = 10 * value + u64::from(*byte - b'0');
        if value > u64::from(greatest) {
            return None;
        }
    }
    Some(value as u32)
}

/// The flag that bytes spell, as `0` or `1`.
pub fn flag_in(bytes: &[u8]) -> Option<bool>
    ensures { result ≡ flag_in bytes.now }
{
    if bytes == b"0".as_slice() {
        Some(false)
    } else if bytes == b"1".as_slice() {
        Some(true)
    } else {
        None
    }
}
