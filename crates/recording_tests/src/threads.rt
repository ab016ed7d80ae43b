// Recordings of more than a megabyte, whole on one thread and in parts on many: both answer the same, and of two faults that which comes
// first in the order of the bytes.
ghost use Rattle.std.specs.Prelude.{◌≤◌, length, IfOk, IfSome};
ghost use Rattle.recordings.specs.Recordings.{IsValidRecording};

use bt_core::items::Items;
use bt_core::memory::Memory;
use bt_io::parts::{Cutter, Peek};
use byteorder::{ByteOrder, LittleEndian};
use rec_format::reading::{read_recording, read_recording_on_threads};
use rec_format::sections::BeforeCpus;
use rec_format::writing::write_recording;
use recordings::error::RecordingError;
use recordings::recording::Recording;
use std::alloc::{AllocError, Global};
use std::test::Fail;
use std::thread::Threads;

/// A header for three CPUs and one format, and the format. It is of version 2, from 5 to 9.
const HEAD: &[u8] = b"BTRACE02\x03\0\0\0\x01\0\0\0\x05\0\0\0\0\0\0\0\t\0\0\0\0\0\0\0\
\x01\0t\x16\0\0\0name: f\n\
ID: 8\n\
format:\n";

/// A mark and an event, of 17 and 47 bytes.
const PAIR: &[u8] = b"\x01\x06\0\0\0\0\0\0\0\x02\x01\0\0\0\0\0\0\
\0\x06\0\0\0\0\0\0\0\x01\0\0\0\x02\0\0\0\x03\0\0\0\x04\0\0\0p\0\0\0\0\0\0\0\0\0\0\0\0\0\0\0\x02\0\0\0\x08\0";

/// How many of them each CPU has.
const PAIRS: usize = 6_000;

/// How many entries the head of each CPU announces.
const ENTRIES: [u8; 4] = *b"\xe0\x2e\0\0";

/// Changes to a whole file, how many bytes are cut off, and what is put behind it; and what is told of it in place of its bytes.
struct Row {
    changes: &'static [(usize, u8)],
    cut: usize,
    behind: &'static [u8],
    told: Option<&'static [u8]>,
}

/// The heads of the CPUs lie at 61, 384,069 and 768,077. Behind the 8 bytes of a head the pairs follow, 64 bytes each.
const ROWS: [Row; 12] = [
    Row {
        changes: &[],
        cut: 0,
        behind: b"",
        told: None,
    },
    Row {
        changes: &[(768_031, 5)],
        cut: 0,
        behind: b"",
        told: Some(b"C7 time order in event 11999 of cpu 1"),
    },
    Row {
        changes: &[(768_031, 5), (768_085, 7)],
        cut: 0,
        behind: b"",
        told: Some(b"C7 time order in event 11999 of cpu 1"),
    },
    Row {
        changes: &[(768_085, 7)],
        cut: 0,
        behind: b"",
        told: Some(b"C12 bad entry in event 0 of cpu 2"),
    },
    Row {
        changes: &[(384_150, 0), (384_151, 0)],
        cut: 0,
        behind: b"",
        told: Some(b"C13 empty mark in event 2 of cpu 1"),
    },
    Row {
        changes: &[(384_139, 9)],
        cut: 0,
        behind: b"",
        told: Some(b"C8 unknown id in event 1 of cpu 1"),
    },
    Row {
        changes: &[(384_135, 1)],
        cut: 0,
        behind: b"",
        told: Some(b"C9 short payload in event 1 of cpu 1"),
    },
    Row {
        changes: &[(384_138, 255)],
        cut: 0,
        behind: b"",
        told: Some(b"C1 truncated at byte 1152085"),
    },
    Row {
        changes: &[],
        cut: 1,
        behind: b"",
        told: Some(b"C1 truncated at byte 1152084"),
    },
    Row {
        changes: &[],
        cut: 0,
        behind: b"@",
        told: Some(b"C10 trailing bytes at byte 1152085"),
    },
    Row {
        changes: &[(384_069, 0)],
        cut: 0,
        behind: b"",
        told: Some(b"C6 bad cpu number at cpu 1"),
    },
    Row {
        changes: &[(384_076, 255)],
        cut: 0,
        behind: b"",
        told: Some(b"C3 bad count: events"),
    },
];

/// Puts a CPU with all its entries behind a file.
fn push_cpu(file: &mut Vec<u8>, number: u8) -> Result<(), AllocError> {
    file.extend_from_slice(&[number, 0, 0, 0])?;
    file.extend_from_slice(&ENTRIES)?;
    for _ in 0..PAIRS {
        file.extend_from_slice(PAIR)?;
    }
    Ok(())
}

/// The file of a row.
fn file_of(alloc: Global, row: &Row) -> Result<Vec<u8>, AllocError> {
    let mut file = Vec::from_slice(alloc, HEAD)?;
    for number in 0..3 {
        push_cpu(&mut file, number)?;
    }
    for (place, byte) in row.changes {
        if *place < file.len() {
            file[*place] = *byte;
        }
    }
    file.truncate(file.len().saturating_sub(row.cut));
    file.extend_from_slice(row.behind)?;
    Ok(file)
}

/// What an answer tells: the bytes that the recording spells, or the error's text.
fn told(alloc: Global, answer: Result<Recording, RecordingError>) -> Result<Vec<u8>, Fail>
    requires { IfOk answer IsValidRecording }
{
    match answer {
        Ok(recording) => Ok(write_recording(alloc, &recording)?),
        Err(error) => Ok(format!(in alloc; "{error}")?.into_bytes()),
    }
}

/// Whether a row's file is told of as the row says.
fn is_told(row: &Row, file: &[u8], told: &[u8]) -> bool {
    match row.told {
        Some(text) => told == text,
        None => told == file,
    }
}

/// Whether a row's file, read on one thread, is told of as the row says.
fn is_read(alloc: Global, row: &Row, file: &[u8]) -> Result<bool, Fail> {
    let bytes = Vec::from_slice(alloc, file)?;
    let told = told(alloc, read_recording(alloc, bytes))?;
    Ok(is_told(row, file, told.as_slice()))
}

/// A file in memory, whose numbers are looked at.
#[derive(Drop)]
struct Whole<'f> {
    bytes: &'f [u8],
}

impl Whole<'_> {
    /// The bytes from a place on, if there are so many.
    fn from(&self, at: u64, count: usize) -> Option<&[u8]>
        ensures { IfSome result (λ bytes. count ≤ length bytes.now) }
    {
        let Ok(start) = usize::try_from(at) else {
            return None;
        };
        if start <= self.bytes.len() && count <= self.bytes.len() - start {
            Some(&self.bytes[start..])
        } else {
            None
        }
    }
}

impl Peek for Whole<'_> {
    fn u8_at(&mut self, at: u64) -> Option<u8> {
        match self.from(at, 1) {
            Some(bytes) => Some(bytes[0]),
            None => None,
        }
    }

    fn u16_at(&mut self, at: u64) -> Option<u16> {
        match self.from(at, 2) {
            Some(bytes) => Some(LittleEndian::read_u16(bytes)),
            None => None,
        }
    }

    fn u32_at(&mut self, at: u64) -> Option<u32> {
        match self.from(at, 4) {
            Some(bytes) => Some(LittleEndian::read_u32(bytes)),
            None => None,
        }
    }

    fn u64_at(&mut self, at: u64) -> Option<u64> {
        match self.from(at, 8) {
            Some(bytes) => Some(LittleEndian::read_u64(bytes)),
            None => None,
        }
    }
}

/// A file in parts that begin at these places, as far as they rise and lie within it.
fn parts_of(alloc: Global, file: &[u8], cuts: &[u64]) -> Result<Vec<Items<u8>>, Memory> {
    let mut parts = Vec::new(alloc);
    let mut from = 0usize;
    for cut in cuts {
        let cut = usize::try_from(*cut)?;
        if from <= cut && cut <= file.len() {
            parts.push(Items::from_slice(alloc, &file[from..cut])?)?;
            from = cut;
        }
    }
    if from <= file.len() {
        parts.push(Items::from_slice(alloc, &file[from..])?)?;
    }
    Ok(parts)
}

/// Whether a row's file, cut at these places and read on many threads, is told of as the row says.
fn is_read_on_threads<R: Threads + Sync>(
    rt: &R,
    alloc: Global,
    row: &Row,
    file: &[u8],
    cuts: &[u64],
) -> Result<bool, Fail> {
    let parts = parts_of(alloc, file, cuts)?;
    let told = told(alloc, read_recording_on_threads(rt, alloc, parts))?;
    Ok(is_told(row, file, told.as_slice()))
}

/// Where the heads of the CPUs lie, by the lengths in a file.
fn heads_of(alloc: Global, file: &[u8]) -> Result<Vec<u64>, Memory> {
    BeforeCpus.cuts(alloc, &mut Whole { bytes: file })
}

/// The places of the heads in a file whose lengths are right.
const HEADS: [u64; 3] = [61, 384_069, 768_077];

/// Other places: none, a part too many, and parts that end within a CPU.
const OTHER_CUTS: [&[u64]; 3] = [&[], &[61, 61, 384_069, 768_077], &[61, 384_070, 768_077]];

#[test]
fn the_heads_of_cpus_are_found(rt: HostRuntime) -> Result<(), Fail> {
    let file = file_of(rt.alloc(), &ROWS[0])?;
    let heads = heads_of(rt.alloc(), file.as_slice())?;
    assert!(rt; heads.as_slice() == HEADS.as_slice());
    Ok(())
}

#[test]
fn many_threads_answer_as_one_does(rt: HostRuntime) -> Result<(), Fail> {
    for row in &ROWS {
        let file = file_of(rt.alloc(), row)?;
        assert!(rt; is_read(rt.alloc(), row, file.as_slice())?);
        let heads = heads_of(rt.alloc(), file.as_slice())?;
        assert!(rt; is_read_on_threads(&rt, rt.alloc(), row, file.as_slice(), heads.as_slice())?);
    }
    Ok(())
}

#[test]
fn other_parts_are_put_together(rt: HostRuntime) -> Result<(), Fail> {
    let file = file_of(rt.alloc(), &ROWS[0])?;
    for cuts in &OTHER_CUTS {
        assert!(rt; is_read_on_threads(&rt, rt.alloc(), &ROWS[0], file.as_slice(), *cuts)?);
    }
    Ok(())
}
