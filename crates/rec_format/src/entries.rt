// The entries of one CPU.
ghost use Rattle.std.specs.Prelude.{◌≡◌, ◌+◌, ◌-◌, ◌^◌, ◌≤◌, drop, length, IfOk, OnErr};
ghost use Rattle.std.specs.Result.{result_err};
ghost use Rattle.recordings.specs.Fronts.{event_part, entry_part};
ghost use Rattle.recordings.specs.Entries.{entry_fault, EntryFails, HasEntries};
ghost use Rattle.recordings.specs.EntryParts.{entries, part_time};
ghost use Rattle.recordings.specs.Events.{payload_fault};
ghost use Rattle.recordings.specs.InFile.{first_bytes, entry_place, entries_in};
ghost use Rattle.rec_format.specs.Answers.{Answers, IsPlaced, IsPartPlaced};

use crate::number::u16_at;
use crate::part::entry_at;
use crate::sections::EVENT_BYTES;
use crate::table::FormatTable;
use bt_core::memory::{Memory, fitting};
use recordings::entries::EntryPlace;
use recordings::error::RecordingError;
use recordings::part::{EntryBytes, EventBytes};
use std::alloc::Global;

/// What the entries of a recording are checked against: all bytes of the file, whether there may be marks of lost events, the
/// recording's start and end, and its formats.
#[derive(Clone, Copy)]
pub(crate) struct Setting<'t> {
    pub file: &'t [u8],
    pub marks: bool,
    pub start: u64,
    pub end: u64,
    pub formats: &'t FormatTable,
}

/// The place of an event's format, or the first check that its payload fails.
fn format_of_event(
    setting: &Setting<'_>,
    cpu: u32,
    place: u32,
    event: &EventBytes<'_>,
) -> Result<u32, RecordingError>
    ensures accepted { IfOk result (λ format. IsPlaced setting.now.formats.now event.now.payload.now format) }
    ensures checked { result_err result ≡ payload_fault setting.now.formats.now cpu place (event_part event.now) }
{
    let Some((id, _)) = u16_at(event.payload) else {
        return Err(RecordingError::ShortPayload(cpu, place));
    };
    let Some((format, found)) = setting.formats.find(id) else {
        return Err(RecordingError::UnknownId(cpu, place));
    };
    if event.payload.len() < found.layout.size as usize {
        return Err(RecordingError::ShortPayload(cpu, place));
    }
    Ok(format)
}

/// The time of an entry.
fn time_of(entry: &EntryBytes<'_>) -> u64
    ensures { result ≡ part_time (entry_part entry.now) }
{
    match entry {
        EntryBytes::Event(event) => event.time,
        EntryBytes::Lost { time, .. } => *time,
        EntryBytes::Unknown(_) => 0,
    }
}

/// Where an entry lies that begins at a byte, of a format at this place if it is an event. A byte before it tells its kind, where
/// there may be marks. [`Memory`] where the byte's number does not fit.
fn place_of(
    marks: bool,
    start: usize,
    entry: &EntryBytes<'_>,
    format: u32,
) -> Result<EntryPlace, Memory>
    ensures place { IfOk result (λ place. place ≡ entry_place (start + first_bytes marks) (entry_part entry.now) format) }
    ensures beyond { OnErr result (2 ^ 32 ≤ start + first_bytes marks) }
{
    let at = u32::try_from(fitting(start.checked_add(usize::from(marks)))?)?;
    match entry {
        EntryBytes::Event(_) => Ok(EntryPlace::Event { at, format }),
        _ => Ok(EntryPlace::Lost { at }),
    }
}

/// The place of an event's format, or 0 of a mark; or the first check that an entry fails. It may not be before the given time.
fn check_entry(
    setting: &Setting<'_>,
    earliest: u64,
    cpu: u32,
    place: u32,
    entry: &EntryBytes<'_>,
) -> Result<u32, RecordingError>
    ensures accepted { IfOk result (λ format. IsPartPlaced setting.now.formats.now (entry_part entry.now) format) }
    ensures checked { result_err result
        ≡ entry_fault (entries setting.now.marks) setting.now.formats.now earliest setting.now.end cpu place (entry_part entry.now) }
{
    if let EntryBytes::Unknown(_) = entry {
        return Err(RecordingError::BadEntry(cpu, place));
    }
    let time = time_of(entry);
    if time < earliest || time > setting.end {
        return Err(RecordingError::TimeOrder(cpu, place));
    }
    match entry {
        EntryBytes::Event(event) => format_of_event(setting, cpu, place, event),
        EntryBytes::Lost { count: 0, .. } => Err(RecordingError::EmptyMark(cpu, place)),
        _ => Ok(0),
    }
}

/// For how many entries room is made at once: for so many, but for no more than the bytes can hold events. Marks take fewer bytes; for
/// more of them the room grows.
fn room_for(count: u32, bytes: &[u8]) -> usize {
    (count as usize).min(bytes.len() / EVENT_BYTES as usize)
}

/// So many entries of the CPU at a place, and what follows them.
pub(crate) fn read_entries<'b>(
    alloc: Global,
    setting: &Setting<'_>,
    cpu: u32,
    count: u32,
    bytes: &'b [u8],
) -> Result<(Vec<EntryPlace>, &'b [u8]), RecordingError>
    requires { bytes.now ≡ drop (length setting.now.file.now - length bytes.now) setting.now.file.now }
    ensures { Answers result
        (λ read. HasEntries (entries setting.now.marks) setting.now.formats.now setting.now.start setting.now.end count bytes.now
        (entries_in setting.now.file.now read.0.items) read.1.now)
        (EntryFails (entries setting.now.marks) (length setting.now.file.now) setting.now.formats.now setting.now.start setting.now.end cpu count bytes.now) }
{
    let mut places = Vec::with_capacity(alloc, room_for(count, bytes))?;
    let mut rest = bytes;
    let mut earliest = setting.start;
    for place in 0..count {
        let Some((entry, after)) = entry_at(setting.marks, rest) else {
            return Err(RecordingError::Truncated(setting.file.len() as u64));
        };
        let format = check_entry(setting, earliest, cpu, place, &entry)?;
        let start = setting.file.len() - rest.len();
        let lies = place_of(setting.marks, start, &entry, format)?;
        places.push(lies)?;
        earliest = time_of(&entry);
        rest = after;
    }
    Ok((places, rest))
}
