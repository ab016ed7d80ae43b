// The fields of an event.
ghost use Rattle.std.specs.Prelude.{◌≡◌, ◌+◌, ◌≤◌, IfOk, IsTrue};
ghost use Rattle.bt_core.specs.declared.limits.TheConstants.{LAYOUT_END};
ghost use Rattle.event_layout.specs.Kinds.{fits_kind};

use bt_core::items::Items;
use bt_core::memory::{Memory, TryCopy};
use std::alloc::Global;

/// What the bytes of a field mean.
#[derive(Clone, Copy, PartialEq, Eq)]
pub enum FieldKind {
    /// A whole number of 1, 2, 4 or 8 bytes. A pointer is read as one.
    Number,
    /// An array of characters.
    Chars,
    /// A `__data_loc` word of 4 bytes, which says where in the payload a string stands.
    DataLoc,
    /// Anything else, which no script reads.
    Other,
}

/// A field of an event: its name, its place in the payload in bytes, and what its bytes mean.
pub struct Field {
    /// Letters, digits and `_`. It may be empty; then nothing reads the field.
    pub name: Items<u8>,
    /// The place of its first byte, from the start of the payload.
    pub offset: u32,
    /// How many bytes it has.
    pub size: u32,
    /// Whether a number is read in two's complement.
    pub signed: bool,
    /// What its bytes mean.
    pub kind: FieldKind,
    /// A number has 1, 2, 4 or 8 bytes, and a data location has 4.
    pub ghost sized: { IsTrue (fits_kind kind size) },
    /// It ends within the bytes that a layout may have.
    pub ghost inside: { offset + size ≤ LAYOUT_END },
}

// Written out, so that it is one call wherever such a value is let go.
impl Drop for Field {
    fn drop(self) {
        let Self {
            name: _,
            offset: _,
            size: _,
            signed: _,
            kind: _,
        } = self;
    }
}

impl TryCopy for Field {
    fn try_copy(&self, alloc: Global) -> Result<Field, Memory> {
        let name = self.name.try_copy(alloc)?;
        Ok(Field {
            name,
            offset: self.offset,
            size: self.size,
            signed: self.signed,
            kind: self.kind,
        })
    }
}
