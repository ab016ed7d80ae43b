// Recordings byte by byte: what is read and written, and each check with its exact value.
use crate::texts::SYS_ENTER;
use event_layout::error::FormatError;
use rec_format::reading::read_recording;
use rec_format::writing::write_recording;
use recordings::entries::EntryRef;
use recordings::error::{CountOf, RecordingError};
use recordings::recording::{CpuTrack, Recording};
use std::alloc::Global;
use std::test::Fail;

/// What stands before the text of a system call's entry: a header for two CPUs and one format, and the system.
const BEFORE_TEXT: &[u8] = b"BTRACE01\x02\0\0\0\x01\0\0\0\0\0\0\0\0\0\0\0\0\x945w\0\0\0\0\
\x0c\0raw_syscalls\x9e\x01\0\0";

/// What stands behind it: three entries of system calls by bash, bash and sshd on the one CPU, and one by bash on the other.
const AFTER_TEXT: &[u8] = b"\0\0\0\0\x03\0\0\0\
\x01\0\0\0\0\0\0\0\x01\0\0\0\x01\0\0\0\0\0\0\0\0\0\0\0bash\0\0\0\0\0\0\0\0\0\0\0\0@\0\0\0\x15\0\0\0\0\0\0\0\0\0\
\0\0\0\0\0\0\0\0\0\0\0\0\0\0\0\0\0\0\0\0\0\0\0\0\0\0\0\0\0\0\0\0\0\0\0\0\0\0\0\0\0\0\0\0\0\0\0\0\0\0\0\0\0\0\
\x02\0\0\0\0\0\0\0\x01\0\0\0\x01\0\0\0\0\0\0\0\0\0\0\0bash\0\0\0\0\0\0\0\0\0\0\0\0@\0\0\0\x15\0\0\0\0\0\0\0\0\0\
\0\0\0\0\0\0\0\0\0\0\0\0\0\0\0\0\0\0\0\0\0\0\0\0\0\0\0\0\0\0\0\0\0\0\0\0\0\0\0\0\0\0\0\0\0\0\0\0\0\0\0\0\0\0\
\x03\0\0\0\0\0\0\0\x01\0\0\0\x01\0\0\0\0\0\0\0\0\0\0\0sshd\0\0\0\0\0\0\0\0\0\0\0\0@\0\0\0\x15\0\0\0\0\0\0\0\0\0\
\0\0\0\0\0\0\0\0\0\0\0\0\0\0\0\0\0\0\0\0\0\0\0\0\0\0\0\0\0\0\0\0\0\0\0\0\0\0\0\0\0\0\0\0\0\0\0\0\0\0\0\0\0\0\
\x01\0\0\0\x01\0\0\0\
\x01\0\0\0\0\0\0\0\x01\0\0\0\x01\0\0\0\0\0\0\0\0\0\0\0bash\0\0\0\0\0\0\0\0\0\0\0\0@\0\0\0\x15\0\0\0\0\0\0\0\0\0\
\0\0\0\0\0\0\0\0\0\0\0\0\0\0\0\0\0\0\0\0\0\0\0\0\0\0\0\0\0\0\0\0\0\0\0\0\0\0\0\0\0\0\0\0\0\0\0\0\0\0\0\0\0\0";

/// The example of docs/RECORDINGS.md.
const EXAMPLE: &[u8] = b"BTRACE01\x01\0\0\0\x01\0\0\0\xf4\x01\0\0\0\0\0\0\xd0\x07\0\0\0\0\0\0\
\x04\0demoE\0\0\0name: tick\n\
ID: 300\n\
format:\n\
\tfield:int n;\toffset:8;\tsize:4;\tsigned:1;\n\
\x02\0\0\0\x01\0\0\0\
\xe8\x03\0\0\0\0\0\0\xd2\x04\0\0\xd3\x04\0\0\xe8\x03\0\0d\0\0\0clock\0\0\0\0\0\0\0\0\0\0\0\x0c\0\0\0,\x01\0\0\xd3\
\x04\0\0\xfe\xff\xff\xff";

/// One of version 2: on the one CPU a mark, an event at the same time and a mark at the end; on the other a mark alone.
const MARKED: &[u8] = b"BTRACE02\x02\0\0\0\x01\0\0\0\x05\0\0\0\0\0\0\0\t\0\0\0\0\0\0\0\
\x01\0t\x16\0\0\0name: f\n\
ID: 8\n\
format:\n\
\x03\0\0\0\x03\0\0\0\
\x01\x06\0\0\0\0\0\0\0\x02\x01\0\0\0\0\0\0\
\0\x06\0\0\0\0\0\0\0\x01\0\0\0\x02\0\0\0\x03\0\0\0\x04\0\0\0p\0\0\0\0\0\0\0\0\0\0\0\0\0\0\0\x02\0\0\0\x08\0\
\x01\t\0\0\0\0\0\0\0\xff\xff\xff\xff\xff\xff\xff\xff\
\x04\0\0\0\x01\0\0\0\
\x01\t\0\0\0\0\0\0\0\x01\0\0\0\0\0\0\0";

/// An entry: an event's time, its process, thread, user and group, its name, the place of its format and its payload; or a mark's time
/// and count.
enum Seen {
    Event(u64, [u32; 4], &'static [u8], u32, &'static [u8]),
    Lost(u64, u64),
}

/// A file in three pieces, how many bytes it has, and what it spells: the version, when the recording starts and ends, how many formats
/// there are, and each CPU's number and entries.
struct Spelled {
    pieces: [&'static [u8]; 3],
    size: usize,
    version: u32,
    span: (u64, u64),
    formats: usize,
    cpus: &'static [(u32, &'static [Seen])],
}

/// The payload of each event of the worked recording.
const CALL: &[u8] = b"\x15\0\0\0\0\0\0\0\0\0\0\0\0\0\0\0\0\0\0\0\0\0\0\0\0\0\0\0\0\0\0\0\
\0\0\0\0\0\0\0\0\0\0\0\0\0\0\0\0\0\0\0\0\0\0\0\0\0\0\0\0\0\0\0\0";

const SPELLED: [Spelled; 3] = [
    Spelled {
        pieces: [BEFORE_TEXT, SYS_ENTER, AFTER_TEXT],
        size: 912,
        version: 1,
        span: (0, 2_000_000_000),
        formats: 1,
        cpus: &[
            (
                0,
                &[
                    Seen::Event(1, [1, 1, 0, 0], b"bash\0\0\0\0\0\0\0\0\0\0\0\0", 0, CALL),
                    Seen::Event(2, [1, 1, 0, 0], b"bash\0\0\0\0\0\0\0\0\0\0\0\0", 0, CALL),
                    Seen::Event(3, [1, 1, 0, 0], b"sshd\0\0\0\0\0\0\0\0\0\0\0\0", 0, CALL),
                ],
            ),
            (
                1,
                &[Seen::Event(1, [1, 1, 0, 0], b"bash\0\0\0\0\0\0\0\0\0\0\0\0", 0, CALL)],
            ),
        ],
    },
    Spelled {
        pieces: [EXAMPLE, b"", b""],
        size: 175,
        version: 1,
        span: (500, 2_000),
        formats: 1,
        cpus: &[(
            2,
            &[Seen::Event(
                1_000,
                [1234, 1235, 1000, 100],
                b"clock\0\0\0\0\0\0\0\0\0\0\0",
                0,
                b"\x2c\x01\0\0\xd3\x04\0\0\xfe\xff\xff\xff",
            )],
        )],
    },
    Spelled {
        pieces: [MARKED, b"", b""],
        size: 175,
        version: 2,
        span: (5, 9),
        formats: 1,
        cpus: &[
            (
                3,
                &[
                    Seen::Lost(6, 258),
                    Seen::Event(
                        6,
                        [1, 2, 3, 4],
                        b"p\0\0\0\0\0\0\0\0\0\0\0\0\0\0\0",
                        0,
                        b"\x08\0",
                    ),
                    Seen::Lost(9, 18_446_744_073_709_551_615),
                ],
            ),
            (4, &[Seen::Lost(9, 1)]),
        ],
    },
];

/// Whether this is the entry.
fn is_seen(entry: &EntryRef<'_>, wanted: &Seen) -> bool {
    match (entry, wanted) {
        (EntryRef::Event(event), Seen::Event(time, numbers, comm, format, payload)) => {
            (event.time, event.format) == (*time, *format)
                && [event.pid, event.tid, event.uid, event.gid] == *numbers
                && event.comm.as_slice() == *comm
                && event.payload == *payload
        }
        (EntryRef::Lost { time, count }, Seen::Lost(told, lost)) => (time, count) == (told, lost),
        _ => false,
    }
}

/// Whether a CPU has this number and these entries.
fn has_entries(track: &CpuTrack, number: u32, entries: &[Seen]) -> bool {
    if track.number != number || track.entries.len() != entries.len() {
        return false;
    }
    for (place, wanted) in entries.iter().enumerate() {
        match track.entries.get(place) {
            Some(entry) => {
                if !is_seen(&entry, wanted) {
                    return false;
                }
            }
            None => return false,
        }
    }
    true
}

/// Whether a recording is what a row spells.
fn is_spelled(recording: &Recording, row: &Spelled) -> bool {
    if recording.version != row.version || (recording.start, recording.end) != row.span {
        return false;
    }
    if recording.formats.len() != row.formats || recording.cpus.len() != row.cpus.len() {
        return false;
    }
    for (track, (number, entries)) in recording.cpus.as_slice().iter().zip(row.cpus) {
        if !has_entries(track, *number, *entries) {
            return false;
        }
    }
    true
}

/// Whether bytes that end before the last one are refused as such, wherever they end.
fn is_cut_anywhere(alloc: Global, bytes: &[u8]) -> Result<bool, Fail> {
    for len in 0..bytes.len() {
        let part = Vec::from_slice(alloc, &bytes[..len])?;
        let Err(RecordingError::Truncated(offset)) = read_recording(alloc, part) else {
            return Ok(false);
        };
        if offset != len as u64 {
            return Ok(false);
        }
    }
    Ok(true)
}

#[test]
fn what_a_file_spells_is_read_and_written(rt: HostRuntime) -> Result<(), Fail> {
    let alloc = rt.alloc();
    for row in &SPELLED {
        let mut file = Vec::from_slice(alloc, row.pieces[0])?;
        file.extend_from_slice(row.pieces[1])?;
        file.extend_from_slice(row.pieces[2])?;
        assert!(rt; file.len() == row.size);
        let recording = read_recording(alloc, Vec::from_slice(alloc, file.as_slice())?)?;
        assert!(rt; is_spelled(&recording, row));
        let written = write_recording(alloc, &recording)?;
        assert!(rt; written.as_slice() == file.as_slice());
        assert!(rt; is_cut_anywhere(alloc, file.as_slice())?);
    }
    Ok(())
}

/// Errors, each with the text by which it is told.
const TOLD: [(RecordingError, &[u8]); 21] = [
    (RecordingError::Truncated(911), b"C1 truncated at byte 911"),
    (RecordingError::BadMagic, b"C2 bad magic"),
    (RecordingError::Count(CountOf::Cpus), b"C3 bad count: cpus"),
    (
        RecordingError::Count(CountOf::Formats),
        b"C3 bad count: formats",
    ),
    (
        RecordingError::Count(CountOf::Events),
        b"C3 bad count: events",
    ),
    (RecordingError::Count(CountOf::Span), b"C3 bad count: span"),
    (
        RecordingError::Format(2, FormatError::NoName),
        b"C4 format 2: F1 no name",
    ),
    (
        RecordingError::Format(2, FormatError::BadId),
        b"C4 format 2: F2 bad id",
    ),
    (
        RecordingError::Format(2, FormatError::BadField(4)),
        b"C4 format 2: F3 bad line 4",
    ),
    (
        RecordingError::Format(2, FormatError::Overlong(4)),
        b"C4 format 2: F4 overlong line 4",
    ),
    (
        RecordingError::Format(2, FormatError::SameName(5)),
        b"C4 format 2: F5 same name line 5",
    ),
    (RecordingError::SameEvent(1), b"C5 same event in format 1"),
    (RecordingError::CpuNumber(1), b"C6 bad cpu number at cpu 1"),
    (
        RecordingError::TimeOrder(1, 7),
        b"C7 time order in event 7 of cpu 1",
    ),
    (
        RecordingError::UnknownId(1, 7),
        b"C8 unknown id in event 7 of cpu 1",
    ),
    (
        RecordingError::ShortPayload(1, 7),
        b"C9 short payload in event 7 of cpu 1",
    ),
    (
        RecordingError::TrailingBytes(912),
        b"C10 trailing bytes at byte 912",
    ),
    (RecordingError::BadSystem(3), b"C11 bad system in format 3"),
    (
        RecordingError::BadEntry(1, 7),
        b"C12 bad entry in event 7 of cpu 1",
    ),
    (
        RecordingError::EmptyMark(1, 7),
        b"C13 empty mark in event 7 of cpu 1",
    ),
    (RecordingError::Memory, b"out of memory"),
];

#[test]
fn errors_are_told_by_their_codes(rt: HostRuntime) -> Result<(), Fail> {
    for (error, text) in TOLD {
        let line = format!(in rt.alloc(); "{error}")?;
        assert!(rt; line.as_bytes() == text);
    }
    Ok(())
}
