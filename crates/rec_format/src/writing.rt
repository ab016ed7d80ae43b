// Writing a recording.
ghost use Rattle.std.specs.Prelude.{◌≡◌, ◌<◌, ◌^◌, ◌∷◌, ◌++◌, length, IfOk, OnOk};
ghost use Rattle.std.specs.Int.{w16, w32, w64, to_le_bytes};
ghost use Rattle.std.specs.List.{AllByRecursion};
ghost use Rattle.recordings.specs.Parts.{sized_bytes, header_bytes, format_bytes, IsEventPart, event_bytes};
ghost use Rattle.recordings.specs.Checks.{magic_of};
ghost use Rattle.recordings.specs.Entries.{entries_bytes};
ghost use Rattle.recordings.specs.EntryParts.{Occurs, part_of_entry, IsEntryPart, entry_bytes, entries as entry_kind};
ghost use Rattle.recordings.specs.Events.{part_of_event};
ghost use Rattle.recordings.specs.InFile.{event_seen, entry_seen};
ghost use Rattle.recordings.specs.Recordings.{header_of, part_of_format, formats_bytes, track_bytes, tracks_bytes, recording_bytes, IsValidRecording};
ghost use Rattle.rec_format.specs.Answers.{CanWriteFormat, CanWriteTrack};

use crate::check::{MAGIC, MAGIC_OF_MARKED, has_marks};
use bt_core::memory::Memory;
use byteorder::{ByteOrder, LittleEndian};
use event_layout::format::Format;
use recordings::entries::{Entries, EntryRef, EventRef};
use recordings::recording::{CpuTrack, Recording};
use std::alloc::{AllocError, Global};

/// The one spelling of a valid recording. Reading it gives the recording again.
///
/// Its only error is [`Memory`].
pub fn write_recording(alloc: Global, recording: &Recording) -> Result<Vec<u8>, Memory>
    requires { IsValidRecording recording.now }
    ensures { IfOk result (λ bytes. bytes.items ≡ recording_bytes recording.now) }
{
    let mut bytes = Vec::new(alloc);
    push_header(&mut bytes, recording)?;
    push_formats(&mut bytes, recording.formats.as_slice())?;
    let marks = has_marks(recording.version);
    push_tracks(&mut bytes, marks, recording.cpus.as_slice())?;
    Ok(bytes)
}

fn push_u16(bytes: &mut Vec<u8>, number: u16) -> Result<(), AllocError>
    ensures { OnOk result (bytes.new.items ≡ bytes.old.items ++ to_le_bytes w16 number) }
{
    let mut piece = [0; 2];
    LittleEndian::write_u16(&mut piece, number);
    bytes.extend_from_slice(&piece)
}

fn push_u32(bytes: &mut Vec<u8>, number: u32) -> Result<(), AllocError>
    ensures { OnOk result (bytes.new.items ≡ bytes.old.items ++ to_le_bytes w32 number) }
{
    let mut piece = [0; 4];
    LittleEndian::write_u32(&mut piece, number);
    bytes.extend_from_slice(&piece)
}

fn push_u64(bytes: &mut Vec<u8>, number: u64) -> Result<(), AllocError>
    ensures { OnOk result (bytes.new.items ≡ bytes.old.items ++ to_le_bytes w64 number) }
{
    let mut piece = [0; 8];
    LittleEndian::write_u64(&mut piece, number);
    bytes.extend_from_slice(&piece)
}

/// Bytes behind their length of 16 bits.
fn push_sized16(bytes: &mut Vec<u8>, piece: &[u8]) -> Result<(), AllocError>
    requires { length piece.now < 2 ^ 16 }
    ensures { OnOk result (bytes.new.items ≡ bytes.old.items ++ sized_bytes w16 piece.now) }
{
    push_u16(bytes, piece.len() as u16)?;
    bytes.extend_from_slice(piece)
}

/// Bytes behind their length of 32 bits.
fn push_sized32(bytes: &mut Vec<u8>, piece: &[u8]) -> Result<(), AllocError>
    requires { length piece.now < 2 ^ 32 }
    ensures { OnOk result (bytes.new.items ≡ bytes.old.items ++ sized_bytes w32 piece.now) }
{
    push_u32(bytes, piece.len() as u32)?;
    bytes.extend_from_slice(piece)
}

/// The magic of a version.
fn magic_of(version: u32) -> &'static [u8]
    ensures { result.now ≡ magic_of version }
{
    if version == 1 { MAGIC } else { MAGIC_OF_MARKED }
}

fn push_header(bytes: &mut Vec<u8>, recording: &Recording) -> Result<(), AllocError>
    requires { IsValidRecording recording.now }
    ensures { OnOk result (bytes.new.items ≡ bytes.old.items ++ header_bytes (header_of recording.now)) }
{
    bytes.extend_from_slice(magic_of(recording.version))?;
    push_u32(bytes, recording.cpus.len() as u32)?;
    push_u32(bytes, recording.formats.len() as u32)?;
    push_u64(bytes, recording.start)?;
    push_u64(bytes, recording.end)
}

fn push_format(bytes: &mut Vec<u8>, format: &Format) -> Result<(), AllocError>
    requires { CanWriteFormat format.now }
    ensures { OnOk result (bytes.new.items ≡ bytes.old.items ++ format_bytes (part_of_format format.now)) }
{
    push_sized16(bytes, format.system.as_slice())?;
    push_sized32(bytes, format.text.as_slice())
}

fn push_formats(bytes: &mut Vec<u8>, formats: &[Format]) -> Result<(), AllocError>
    requires { AllByRecursion CanWriteFormat formats.now }
    ensures { OnOk result (bytes.new.items ≡ bytes.old.items ++ formats_bytes formats.now) }
{
    for format in formats {
        push_format(bytes, format)?;
    }
    Ok(())
}

/// The parts of an event, one after the other.
pub(crate) fn push_event(bytes: &mut Vec<u8>, event: &EventRef<'_>) -> Result<(), AllocError>
    requires { IsEventPart (part_of_event (event_seen event.now)) }
    ensures written { OnOk result (bytes.new.items ≡ bytes.old.items ++ event_bytes (part_of_event (event_seen event.now))) }
    ensures whole { IsEventPart (part_of_event (event_seen event.now)) }
{
    push_u64(bytes, event.time)?;
    push_u32(bytes, event.pid)?;
    push_u32(bytes, event.tid)?;
    push_u32(bytes, event.uid)?;
    push_u32(bytes, event.gid)?;
    bytes.extend_from_slice(&event.comm)?;
    push_sized32(bytes, event.payload)
}

fn push_tagged(bytes: &mut Vec<u8>, event: &EventRef<'_>) -> Result<(), AllocError>
    requires { IsEventPart (part_of_event (event_seen event.now)) }
    ensures { OnOk result (bytes.new.items ≡ bytes.old.items ++ 0 ∷ event_bytes (part_of_event (event_seen event.now))) }
{
    bytes.push(0)?;
    push_event(bytes, event)
}

fn push_marked(bytes: &mut Vec<u8>, marks: bool, event: &EventRef<'_>) -> Result<(), AllocError>
    requires { IsEventPart (part_of_event (event_seen event.now)) }
    ensures { OnOk result (bytes.new.items ≡ bytes.old.items ++ entry_bytes marks (Occurs (part_of_event (event_seen event.now)))) }
{
    if marks {
        push_tagged(bytes, event)
    } else {
        push_event(bytes, event)
    }
}

fn push_entry(bytes: &mut Vec<u8>, marks: bool, entry: &EntryRef<'_>) -> Result<(), AllocError>
    requires { IsEntryPart marks (part_of_entry (entry_seen entry.now)) }
    ensures { OnOk result (bytes.new.items ≡ bytes.old.items ++ entry_bytes marks (part_of_entry (entry_seen entry.now))) }
{
    match entry {
        EntryRef::Event(event) => push_marked(bytes, marks, event),
        EntryRef::Lost { time, count } => {
            bytes.push(1)?;
            push_u64(bytes, *time)?;
            push_u64(bytes, *count)
        }
    }
}

fn push_entries(bytes: &mut Vec<u8>, marks: bool, entries: &Entries) -> Result<(), AllocError>
    requires { AllByRecursion (λ e. IsEntryPart marks (part_of_entry e)) entries.now }
    ensures { OnOk result (bytes.new.items ≡ bytes.old.items ++ entries_bytes (entry_kind marks) entries.now) }
{
    for place in 0..entries.len() {
        if let Some(entry) = entries.get(place) {
            push_entry(bytes, marks, &entry)?;
        }
    }
    Ok(())
}

fn push_track(bytes: &mut Vec<u8>, marks: bool, track: &CpuTrack) -> Result<(), AllocError>
    requires { CanWriteTrack marks track.now }
    ensures { OnOk result (bytes.new.items ≡ bytes.old.items ++ track_bytes marks track.now) }
{
    push_u32(bytes, track.number)?;
    push_u32(bytes, track.entries.len() as u32)?;
    push_entries(bytes, marks, &track.entries)
}

fn push_tracks(bytes: &mut Vec<u8>, marks: bool, tracks: &[CpuTrack]) -> Result<(), AllocError>
    requires { AllByRecursion (CanWriteTrack marks) tracks.now }
    ensures { OnOk result (bytes.new.items ≡ bytes.old.items ++ tracks_bytes marks tracks.now) }
{
    for track in tracks {
        push_track(bytes, marks, track)?;
    }
    Ok(())
}
