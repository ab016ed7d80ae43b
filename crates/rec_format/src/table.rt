// The formats that were read so far, found by their IDs.
ghost use Rattle.std.specs.Prelude.{◌≡◌, ◌<◌, ◌^◌, ◌∷◌, ◌++◌, [], List, length, true, false, IfOk, OnOk};
ghost use Rattle.std.specs.List.{list_any};
ghost use Rattle.std.specs.Option.{option_map};
ghost use Rattle.event_layout.specs.declared.format.Format.{Format as Tracepoint};
ghost use Rattle.event_layout.specs.Names.{tracepoint_name};
ghost use Rattle.recordings.specs.declared.error.RecordingError.TheVariants.{SameEvent};
ghost use Rattle.recordings.specs.Checks.{IsFormatFault, is_system, is_same_event, format_of};
ghost use Rattle.recordings.specs.Events.{format_with};
ghost use Rattle.rec_format.specs.Heads.{format_part};
ghost use Rattle.rec_format.specs.Answers.{Answers, AddsFormat, IsTable, IsFormatOf};

use crate::check::is_system;
use crate::part::FormatText;
use bt_core::items::Items;
use bt_core::memory::Memory;
use event_layout::error::FormatError;
use event_layout::format::Format;
use event_layout::layout::Layout;
use recordings::error::RecordingError;
use std::alloc::Global;
use std::collections::{BTreeMap, BTreeSet};
use std::marker::Model;
use tracefs_format::reading::read_layout;

/// The formats of a recording that is being read, with tables that find each by its ID, and by its
/// system and name.
///
/// Contracts see the list of the formats.
pub(crate) struct FormatTable {
    tables: Tables,
}

// Written out, so that it is one call wherever such a value is let go.
impl Drop for FormatTable {
    fn drop(self) {
        let Self { tables: _ } = self;
    }
}

/// What a table of formats has. It does not fit together where a format was refused.
#[derive(Drop)]
struct Tables {
    formats: Items<Format>,
    places: BTreeMap<u16, u32>,
    names: BTreeSet<Items<u8>>,
}

impl Model for FormatTable {
    ghost use Rattle.std.specs.Prelude.{List};
    ghost use Rattle.event_layout.specs.declared.format.Format.{Format as Tracepoint};
    ghost use Rattle.rec_format.specs.Answers.{IsTable};

    ghost Value = { List Tracepoint };

    ghost view = { λ s. s.tables.formats };

    ghost invariant = { λ s. IsTable s.tables.formats s.tables.places s.tables.names };
}

impl FormatTable {
    /// A table without formats.
    pub fn new(alloc: Global) -> FormatTable
        ensures { result ≡ [] }
    {
        FormatTable {
            tables: Tables {
                formats: Items::new(alloc),
                places: BTreeMap::new(alloc),
                names: BTreeSet::new(alloc),
            },
        }
    }

    /// The table with one more format, or the first check that the format fails.
    pub fn with(self, alloc: Global, part: FormatText<'_>) -> Result<FormatTable, RecordingError>
        requires few { length self < 2 ^ 32 }
        requires short { length part.text.now < 2 ^ 32 }
        ensures { Answers result (AddsFormat self (format_part part.entry)) (IsFormatFault self (format_part part.entry)) }
    {
        let FormatTable { mut tables } = self;
        tables.add(alloc, part)?;
        Ok(FormatTable { tables })
    }

    /// The format of this ID, with its place.
    pub fn find(&self, id: u16) -> Option<(u32, &Format)>
        ensures { option_map (λ found. (found.0, found.1.now)) result ≡ format_with id self.now }
    {
        let Some(place) = self.tables.places.get(&id) else {
            return None;
        };
        let Some(format) = self.tables.formats.get(*place as usize) else {
            return None;
        };
        Some((*place, format))
    }

    /// The formats in their order.
    pub fn into_formats(self) -> Items<Format>
        ensures { result ≡ self }
    {
        let FormatTable { tables } = self;
        tables.formats
    }
}

impl Tables {
    /// Adds a format, or answers the first check that it fails.
    fn add(&mut self, alloc: Global, part: FormatText<'_>) -> Result<(), RecordingError>
        requires fits { IsTable self.old.formats self.old.places self.old.names }
        requires few { length self.old.formats < 2 ^ 32 }
        requires short { length part.text.now < 2 ^ 32 }
        ensures answer { Answers result (λ _. AddsFormat self.old.formats (format_part part.entry) self.new.formats)
            (IsFormatFault self.old.formats (format_part part.entry)) }
        ensures table { OnOk result (IsTable self.new.formats self.new.places self.new.names) }
    {
        let format = new_format(alloc, self.formats.len() as u32, part)?;
        self.note(alloc, &format)?;
        Ok(self.formats.push(format)?)
    }

    /// Notes the place behind the last format as that of a format, if no earlier one is of the same event.
    fn note(&mut self, alloc: Global, format: &Format) -> Result<(), RecordingError>
        requires fits { IsTable self.old.formats self.old.places self.old.names }
        requires few { length self.old.formats < 2 ^ 32 }
        requires system { is_system format.now.system ≡ true }
        ensures answer { Answers result (λ _. list_any (is_same_event format.now) self.old.formats ≡ false)
            (λ e. (list_any (is_same_event format.now) self.old.formats ≡ true) × (e ≡ SameEvent (length self.old.formats))) }
        ensures formats { self.new.formats ≡ self.old.formats }
        ensures table { OnOk result (IsTable (self.old.formats ++ format.now ∷ []) self.new.places self.new.names) }
    {
        let place = self.formats.len() as u32;
        let layout = &format.layout;
        let name = tracepoint_name(alloc, format.system.as_slice(), layout.name.as_slice())?;
        if self.places.contains_key(&layout.id) || self.names.contains(&name) {
            return Err(RecordingError::SameEvent(place));
        }
        self.places.insert(layout.id, place)?;
        self.names.insert(name)?;
        Ok(())
    }
}

/// How the tracepoint of a system and a name is called: both with a colon between them, as
/// `sched:sched_switch`.
fn tracepoint_name(alloc: Global, system: &[u8], name: &[u8]) -> Result<Items<u8>, Memory>
    ensures { IfOk result (λ joined. joined ≡ tracepoint_name system.now name.now) }
{
    let mut joined = Vec::from_slice(alloc, system)?;
    joined.push(b':')?;
    joined.extend_from_slice(name)?;
    Ok(Items::of(joined))
}

/// The format of this part behind so many others, or the first check that it fails by itself.
fn new_format(alloc: Global, place: u32, part: FormatText<'_>) -> Result<Format, RecordingError>
    requires { length part.text.now < 2 ^ 32 }
    ensures { Answers result (IsFormatOf (format_part part.entry))
        (λ e. (earlier : List Tracepoint) → length earlier ≡ place → IsFormatFault earlier (format_part part.entry) e) }
{
    if !is_system(part.system) {
        return Err(RecordingError::BadSystem(place));
    }
    match read_layout(alloc, part.text) {
        Ok(layout) => Ok(with_layout(alloc, part, layout)?),
        Err(FormatError::Memory(_)) => Err(RecordingError::Memory),
        Err(fault) => Err(RecordingError::Format(place, fault)),
    }
}

/// The format of this part, whose text has this layout.
fn with_layout(alloc: Global, part: FormatText<'_>, layout: Layout) -> Result<Format, Memory>
    ensures { IfOk result (λ format. format ≡ format_of (format_part part.entry) layout) }
{
    let system = Items::from_slice(alloc, part.system)?;
    let text = Items::from_slice(alloc, part.text)?;
    Ok(Format {
        system,
        text,
        layout,
    })
}
