// The entries of a CPU, where they lie in the file.
ghost use Rattle.std.specs.Prelude.{◌≡◌, length, slice_get, drop, IfOk};
ghost use Rattle.std.specs.Arc.{arc_value};
ghost use Rattle.std.specs.Option.{option_map};
ghost use Rattle.recordings.specs.Events.{event_of};
ghost use Rattle.recordings.specs.Fronts.{event_at, event_part, entry_part, mark_at};
ghost use Rattle.recordings.specs.InFile.{entry_in, entries_in, entry_seen, event_seen, event_taken, mark_taken};

use crate::part::{EntryBytes, EventBytes, event_at, mark_at};
use bt_core::memory::Memory;
use std::alloc::Global;
use std::marker::Model;
use std::sync::Arc;

/// An entry of a CPU, whose payload lies in the file.
#[derive(Clone, Copy)]
pub enum EntryRef<'f> {
    /// An event.
    Event(EventRef<'f>),
    /// So many events were lost, as was told at a time in nanoseconds.
    Lost {
        /// In nanoseconds.
        time: u64,
        /// How many were lost.
        count: u64,
    },
}

/// An event, whose payload lies in the file.
#[derive(Clone, Copy)]
pub struct EventRef<'f> {
    /// In nanoseconds.
    pub time: u64,
    /// The process of the thread that ran.
    pub pid: u32,
    /// The thread that ran.
    pub tid: u32,
    /// The user of the process.
    pub uid: u32,
    /// The group of the process.
    pub gid: u32,
    /// The name of the thread, which ends before the first zero byte.
    pub comm: [u8; 16],
    /// The place of its format in the recording, counted from 0.
    pub format: u32,
    /// Its first two bytes are the ID of its format, the lower first.
    pub payload: &'f [u8],
}

/// Where an entry lies: an event from the byte on, with the place of its format, or a mark.
#[derive(Clone, Copy, Drop)]
pub enum EntryPlace {
    /// An event.
    Event {
        /// Its first byte, counted from 0.
        at: u32,
        /// The place of its format in the recording, counted from 0.
        format: u32,
    },
    /// The mark that events were lost.
    Lost {
        /// The first byte of its time, counted from 0.
        at: u32,
    },
}

/// The entries of a CPU, in the order of the file. They lie in the file's bytes, which all CPUs share, so
/// that an entry takes no memory but that of its place.
///
/// Contracts see the list of the entries.
#[derive(Drop)]
pub struct Entries {
    file: Arc<Vec<u8>, Global>,
    places: Vec<EntryPlace>,
}

impl Model for Entries {
    ghost use Rattle.std.specs.Prelude.{List};
    ghost use Rattle.std.specs.Arc.{arc_value};
    ghost use Rattle.recordings.specs.declared.recording.Entry.{Entry};
    ghost use Rattle.recordings.specs.InFile.{entries_in};

    ghost Value = { List Entry };

    ghost view = { λ s. entries_in (arc_value s.file).items s.places.items };
}

impl Entries {
    /// The entries at places of a file.
    pub fn of(file: &Arc<Vec<u8>, Global>, places: Vec<EntryPlace>) -> Result<Entries, Memory>
        ensures { IfOk result (λ all. all ≡ entries_in (arc_value file.now).items places.items) }
    {
        let file = Arc::try_clone(file)?;
        Ok(Entries { file, places })
    }

    /// The entries at places of bytes.
    pub fn in_bytes(
        alloc: Global,
        bytes: Vec<u8>,
        places: Vec<EntryPlace>,
    ) -> Result<Entries, Memory>
        ensures { IfOk result (λ all. all ≡ entries_in bytes.items places.items) }
    {
        let file = Arc::new(alloc, bytes)?;
        Ok(Entries { file, places })
    }

    /// How many entries it has.
    pub fn len(&self) -> usize
        ensures { result ≡ length self.now }
    {
        self.places.len()
    }

    /// The entry at a place, counted from 0, or `None` past the last. It takes no memory.
    #[inline(always)]
    pub fn get(&self, place: usize) -> Option<EntryRef<'_>>
        ensures { option_map entry_seen result ≡ slice_get self.now place }
    {
        let Some(found) = self.places.get(place) else {
            return None;
        };
        Some(entry_in((*self.file).as_slice(), *found))
    }
}

/// The entry at a place of a file's bytes, or a mark of nothing where none lies there.
#[inline(always)]
fn entry_in(file: &[u8], place: EntryPlace) -> EntryRef<'_>
    ensures { entry_seen result ≡ entry_in file.now place }
{
    match place {
        EntryPlace::Event { at, format } => event_in(file, at, format),
        EntryPlace::Lost { at } => mark_in(file, at),
    }
}

/// What lies from a byte of the file on.
#[inline(always)]
fn from_byte(file: &[u8], at: u32) -> &[u8]
    ensures { result.now ≡ drop at file.now }
{
    let start = file.len().min(at as usize);
    &file[start..]
}

/// The event from a byte of the file on.
#[inline(always)]
fn event_in(file: &[u8], at: u32, format: u32) -> EntryRef<'_>
    ensures { entry_seen result ≡ event_taken format (event_at (drop at file.now)) }
{
    match event_at(from_byte(file, at)) {
        None => EntryRef::Lost { time: 0, count: 0 },
        Some((event, _)) => EntryRef::Event(with_format(event, format)),
    }
}

/// An event, with the place of its format.
#[inline(always)]
fn with_format(event: EventBytes<'_>, format: u32) -> EventRef<'_>
    ensures { event_seen result ≡ event_of (event_part event.entry) format }
{
    EventRef {
        time: event.time,
        pid: event.pid,
        tid: event.tid,
        uid: event.uid,
        gid: event.gid,
        comm: event.comm,
        format,
        payload: event.payload,
    }
}

/// The mark from a byte of the file on.
fn mark_in(file: &[u8], at: u32) -> EntryRef<'_>
    ensures { entry_seen result ≡ mark_taken (mark_at (drop at file.now)) }
{
    match mark_at(from_byte(file, at)) {
        Some((EntryBytes::Lost { time, count }, _)) => EntryRef::Lost { time, count },
        _ => EntryRef::Lost { time: 0, count: 0 },
    }
}
