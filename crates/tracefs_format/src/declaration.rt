// The declaration of a field: its name and what says its kind.
ghost use Rattle.std.specs.Prelude.{◌≡◌, is_some, IsTrue};
ghost use Rattle.tracefs_format.specs.Classes.{Finds};
ghost use Rattle.event_layout.specs.Kinds.{fits_kind, is_number_size};
ghost use Rattle.event_layout.specs.Declarations.{ungrouped, declared_name, declared_type, kind_of};

use crate::bytes::{ByteClass, before_last, split_ending};
use crate::words::{has_word, is_char_words};
use event_layout::field::FieldKind;

/// A declaration in its parts.
#[derive(Clone, Copy)]
pub struct Declaration<'a> {
    /// The name, which may be empty.
    pub name: &'a [u8],
    /// What stands before the name.
    pub type_: &'a [u8],
    /// Whether a bracket group stood after the name.
    pub is_array: bool,
}

/// A declaration without its last bracket group, or `None` where it does not end in one.
fn ungrouped(declaration: &[u8]) -> Option<&[u8]>
    ensures { Finds (λ front. front.now) result (ungrouped declaration.now) }
{
    if declaration.ends_with(b"]") {
        before_last(declaration, b'[')
    } else {
        None
    }
}

/// The parts of a declaration.
pub fn declaration_parts(declaration: &[u8]) -> Declaration<'_>
    ensures name { result.name.now ≡ declared_name declaration.now }
    ensures type_ { result.type_.now ≡ declared_type declaration.now }
    ensures is_array { result.is_array ≡ is_some (ungrouped declaration.now) }
{
    let (is_array, named) = match ungrouped(declaration) {
        Some(front) => (true, front),
        None => (false, declaration),
    };
    let (type_, name) = split_ending(named, ByteClass::Word);
    Declaration {
        name,
        type_,
        is_array,
    }
}

/// Whether a number may have this many bytes.
fn is_number_size(size: u32) -> bool
    ensures { result ≡ is_number_size size }
{
    matches!(size, 1 | 2 | 4 | 8)
}

/// The kind of a field of this type and size.
#[tactic(auto, unfolding(event_layout::specs::Declarations::kind_of))]
pub fn kind_of(type_: &[u8], is_array: bool, size: u32) -> FieldKind
    ensures kind { result ≡ kind_of type_.now is_array size }
    ensures sized { IsTrue (fits_kind result size) }
{
    if type_.starts_with(b"__data_loc") {
        if has_word(type_, b"char") && size == 4 {
            FieldKind::DataLoc
        } else {
            FieldKind::Other
        }
    } else if type_.starts_with(b"__rel_loc") {
        FieldKind::Other
    } else if is_array {
        if is_char_words(type_) && !type_.contains(&b'*') {
            FieldKind::Chars
        } else {
            FieldKind::Other
        }
    } else if is_number_size(size) {
        FieldKind::Number
    } else {
        FieldKind::Other
    }
}
