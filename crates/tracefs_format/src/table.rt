// The fields that were read so far, and the names that they have.
ghost use Rattle.std.specs.Prelude.{◌≡◌, ◌≢◌, ◌||◌, ◌∷◌, [], ◌++◌, ℕ, List, map, not, IfOk, OnOk, IsTrue, Some};
ghost use Rattle.std.specs.Str.{bytes_eq};
ghost use Rattle.event_layout.specs.Kinds.{fits_kind};
ghost use Rattle.tracefs_format.specs.Described.{described_by};
ghost use Rattle.event_layout.specs.FieldLines.{description};
ghost use Rattle.tracefs_format.specs.Tables.{Answers, has_name, is_known, IsMadeOf, IsTable};
ghost use Rattle.event_layout.specs.Layouts.{field_fault};

use crate::line::FieldLine;
use bt_core::items::Items;
use bt_core::limits::LAYOUT_END;
use bt_core::memory::Memory;
use event_layout::error::FormatError;
use event_layout::field::Field;
use event_layout::layout::Layout;
use std::alloc::Global;
use std::collections::BTreeSet;
use std::marker::Model;

/// The fields of a layout that is being read, with their names for finding an equal one.
///
/// Contracts see what the lines of these fields say.
#[derive(Drop)]
pub struct FieldTable {
    tables: Tables,
}

/// What a table of fields has. It does not fit together where a field was refused.
#[derive(Drop)]
struct Tables {
    fields: Items<Field>,
    names: BTreeSet<Items<u8>>,
    size: u32,
}

impl Model for FieldTable {
    ghost use Rattle.std.specs.Prelude.{List, map};
    ghost use Rattle.event_layout.specs.FieldLines.{Description, description};
    ghost use Rattle.tracefs_format.specs.Tables.{IsTable};

    ghost Value = { List Description };

    ghost view = { λ s. map description s.tables.fields };

    ghost invariant = { λ s. IsTable s.tables.fields s.tables.names s.tables.size };
}

impl FieldTable {
    /// A table without fields.
    pub fn new(alloc: Global) -> FieldTable
        ensures { result ≡ [] }
    {
        FieldTable {
            tables: Tables {
                fields: Items::new(alloc),
                names: BTreeSet::new(alloc),
                size: 0,
            },
        }
    }

    /// The table with the field of a line. The field is refused where it ends after 4,096 bytes, and
    /// else where an earlier field has its name and the name is not empty.
    pub fn with(
        self,
        alloc: Global,
        line: FieldLine<'_>,
        number: u32,
    ) -> Result<FieldTable, FormatError>
        requires { IsTrue (fits_kind line.kind line.size) }
        ensures { Answers result (field_fault number self (Some (described_by line.entry))) (λ table. table ≡ self ++ described_by line.entry ∷ []) }
    {
        let FieldTable { mut tables } = self;
        tables.add(alloc, line, number)?;
        Ok(FieldTable { tables })
    }

    /// The layout of these fields.
    pub fn into_layout(self, name: Items<u8>, id: u16) -> Layout
        ensures { IsMadeOf name id self result }
    {
        let Tables {
            fields,
            names: _names,
            size,
        } = self.tables;
        Layout {
            name,
            id,
            fields,
            size,
        }
    }
}

impl Tables {
    /// Adds the field of a line, or answers why it is refused.
    fn add(&mut self, alloc: Global, line: FieldLine<'_>, number: u32) -> Result<(), FormatError>
        requires fits { IsTable self.old.fields self.old.names self.old.size }
        requires kind { IsTrue (fits_kind line.kind line.size) }
        ensures answer { Answers result (field_fault number (map description self.old.fields) (Some (described_by line.entry)))
            (λ _. map description self.new.fields ≡ map description self.old.fields ++ described_by line.entry ∷ []) }
        ensures table { OnOk result (IsTable self.new.fields self.new.names self.new.size) }
    {
        let end = u64::from(line.offset) + u64::from(line.size);
        if end > u64::from(LAYOUT_END) {
            return Err(FormatError::Overlong(number));
        }
        if !note_name(alloc, &mut self.names, line.name)? {
            return Err(FormatError::SameName(number));
        }
        self.fields.push(Field {
            name: Items::from_slice(alloc, line.name)?,
            offset: line.offset,
            size: line.size,
            signed: line.signed,
            kind: line.kind,
        })?;
        self.size = self.size.max(end as u32);
        Ok(())
    }
}

/// Adds a name that is not empty, and answers whether it is new. An empty name is always new.
fn note_name(alloc: Global, names: &mut BTreeSet<Items<u8>>, name: &[u8]) -> Result<bool, Memory>
    ensures new { IfOk result (λ new. new ≡ not (is_known names.old name.now)) }
    ensures others { OnOk result ((other : List ℕ) → other ≢ [] → has_name names.new other ≡ (bytes_eq name.now other || has_name names.old other)) }
{
    if name.is_empty() {
        return Ok(true);
    }
    Ok(names.insert(Items::from_slice(alloc, name)?)?)
}
