// The layout of an event.
ghost use Rattle.std.specs.Prelude.{◌≡◌, IfOk};
ghost use Rattle.event_layout.specs.Sizes.{greatest_end};

use crate::field::Field;
use bt_core::items::Items;
use bt_core::memory::{Memory, TryCopy};
use std::alloc::Global;

/// The layout of an event: its name, the number that its payloads begin with, and its fields.
pub struct Layout {
    /// Letters, digits and `_`, at least one.
    pub name: Items<u8>,
    /// The number of the event, which its payloads begin with.
    pub id: u16,
    /// In the order of the text's lines.
    pub fields: Items<Field>,
    /// How many bytes a payload needs: the greatest end of a field, and 0 without fields.
    pub size: u32,
    pub ghost covers: { size ≡ greatest_end fields },
}

// Written out, so that it is one call wherever such a value is let go.
impl Drop for Layout {
    fn drop(self) {
        let Self {
            name: _,
            id: _,
            fields: _,
            size: _,
        } = self;
    }
}

impl Layout {
    ghost use Rattle.std.specs.Option.{option_copied};
    ghost use Rattle.event_layout.specs.ByName.{field_named};

    /// The field of this name, or `None` where there is none. The empty name finds none, since nothing
    /// reads a field without a name.
    pub fn field(&self, name: &[u8]) -> Option<&Field>
        ensures { option_copied result ≡ field_named name.now self.now.fields }
    {
        if name.is_empty() {
            return None;
        }
        for field in self.fields.as_slice() {
            if field.name.as_slice() == name {
                return Some(field);
            }
        }
        None
    }
}

impl TryCopy for Layout {
    fn try_copy(&self, alloc: Global) -> Result<Layout, Memory> {
        let name = self.name.try_copy(alloc)?;
        let fields = self.fields.try_copy(alloc)?;
        Ok(Layout {
            name,
            id: self.id,
            fields,
            size: self.size,
        })
    }
}
