// What the lines of a format text say.
ghost use Rattle.std.specs.Prelude.{◌≡◌, IfSome, IsTrue};
ghost use Rattle.std.specs.List.{list_all};
ghost use Rattle.bt_core.specs.Bytes.{is_word_byte};
ghost use Rattle.tracefs_format.specs.Classes.{Finds};
ghost use Rattle.event_layout.specs.Kinds.{fits_kind};
ghost use Rattle.event_layout.specs.Reading.{word_in, name_on, id_on, number_after, flag_after, field_on};
ghost use Rattle.tracefs_format.specs.Described.{described_by};

use crate::bytes::{ByteClass, after, cut_at, flag_in, labelled, number_in, without_front};
use crate::declaration::{declaration_parts, kind_of};
use event_layout::field::FieldKind;

/// What a field line says of its field.
#[derive(Clone, Copy)]
pub struct FieldLine<'a> {
    pub name: &'a [u8],
    pub offset: u32,
    pub size: u32,
    pub signed: bool,
    pub kind: FieldKind,
}

/// The bytes, where they are a word: one or more letters and digits.
fn word_in(bytes: &[u8]) -> Option<&[u8]>
    ensures { Finds (λ word. word.now) result (word_in bytes.now) }
{
    if !bytes.is_empty() && all_word(bytes) {
        Some(bytes)
    } else {
        None
    }
}

/// Whether all bytes are letters and digits.
fn all_word(bytes: &[u8]) -> bool
    ensures { result ≡ list_all is_word_byte bytes.now }
{
    bytes.iter().all(|b| ByteClass::Word.has(*b))
}

/// The name that line 1 spells, or `None` where it is no name line.
#[tactic(auto, unfolding(event_layout::specs::Reading::name_on))]
pub fn name_on(line: &[u8]) -> Option<&[u8]>
    ensures { Finds (λ name. name.now) result (name_on line.now) }
{
    match after(line, b"name:") {
        Some(rest) => word_in(without_front(rest, ByteClass::Blank)),
        None => None,
    }
}

/// The number that line 2 spells, or `None` where it is no line of an ID.
#[tactic(auto, unfolding(event_layout::specs::Reading::id_on))]
pub fn id_on(line: &[u8]) -> Option<u16>
    ensures { result ≡ id_on line.now }
{
    match after(line, b"ID:") {
        Some(rest) => match number_in(without_front(rest, ByteClass::Blank), 65_535) {
            Some(id) => Some(id as u16),
            None => None,
        },
        None => None,
    }
}

/// The number that stands after a label.
#[tactic(auto, unfolding(event_layout::specs::Reading::number_after))]
fn number_after(part: &[u8], label: &[u8]) -> Option<u32>
    ensures { result ≡ number_after label.now part.now }
{
    match labelled(part, label) {
        Some(digits) => number_in(digits, u32::MAX),
        None => None,
    }
}

/// The flag that stands after a label.
#[tactic(auto, unfolding(event_layout::specs::Reading::flag_after))]
fn flag_after(part: &[u8], label: &[u8]) -> Option<bool>
    ensures { result ≡ flag_after label.now part.now }
{
    match labelled(part, label) {
        Some(flag) => flag_in(flag),
        None => None,
    }
}

/// The field that a line describes, or `None` where it is no field line.
#[tactic(auto, unfolding(event_layout::specs::Reading::field_on))]
pub fn field_on(line: &[u8]) -> Option<FieldLine<'_>>
    ensures field { Finds described_by result (field_on line.now) }
    ensures sized { IfSome result (λ f. IsTrue (fits_kind f.kind f.size)) }
{
    let Some((part, rest)) = cut_at(line, b';') else {
        return None;
    };
    let Some(declaration) = labelled(part, b"field:") else {
        return None;
    };
    let Some((part, rest)) = cut_at(rest, b';') else {
        return None;
    };
    let Some(offset) = number_after(part, b"offset:") else {
        return None;
    };
    let Some((part, rest)) = cut_at(rest, b';') else {
        return None;
    };
    let Some(size) = number_after(part, b"size:") else {
        return None;
    };
    let Some((part, rest)) = cut_at(rest, b';') else {
        return None;
    };
    let Some(signed) = flag_after(part, b"signed:") else {
        return None;
    };
    if !rest.is_empty() {
        return None;
    }
    let declared = declaration_parts(declaration);
    Some(FieldLine {
        name: declared.name,
        offset,
        size,
        signed,
        kind: kind_of(declared.type_, declared.is_array, size),
    })
}
