// Recordings of some megabytes: the heads of their CPUs are found, and where the times of each CPU begin anew, by looks at a small share of
// the bytes.
ghost use Rattle.std.specs.Prelude.{◌≤◌, length, IfSome};

use bt_core::memory::Memory;
use bt_io::parts::{Cutter, Peek};
use byteorder::{ByteOrder, LittleEndian};
use rec_format::sections::BeforeCpus;
use std::alloc::Global;
use std::test::Fail;

/// How many bytes a block has, of which it is noted whether it was looked at.
const BLOCK: usize = 16_384;

/// A file in memory, and which blocks of it were looked at.
#[derive(Drop)]
struct Noted<'f> {
    bytes: &'f [u8],
    looked: Vec<bool>,
}

impl<'f> Noted<'f> {
    /// A file that was not looked at yet.
    fn of(alloc: Global, bytes: &'f [u8]) -> Result<Noted<'f>, Memory> {
        let mut looked = Vec::new(alloc);
        looked.resize(bytes.len() / BLOCK + 1, false)?;
        Ok(Noted { bytes, looked })
    }

    /// The bytes from a place on, if there are so many.
    fn from(&mut self, at: u64, count: usize) -> Option<&'f [u8]>
        ensures { IfSome result (λ bytes. count ≤ length bytes.now) }
    {
        let Ok(start) = usize::try_from(at) else {
            return None;
        };
        if let Some(looked) = self.looked.get_mut(start / BLOCK) {
            *looked = true;
        }
        if start <= self.bytes.len() && count <= self.bytes.len() - start {
            Some(&self.bytes[start..])
        } else {
            None
        }
    }

    /// How many blocks were looked at, and how many there are.
    fn shares(&self) -> (usize, usize) {
        let looked = self.looked.iter().filter(|looked| **looked).count();
        (looked, self.looked.len())
    }
}

impl Peek for Noted<'_> {
    fn u8_at(&mut self, at: u64) -> Option<u8> {
        match self.from(at, 1) {
            Some(bytes) => Some(bytes[0]),
            None => None,
        }
    }

    fn u16_at(&mut self, at: u64) -> Option<u16> {
        match self.from(at, 2) {
            Some(bytes) => Some(LittleEndian::read_u16(bytes)),
            None => None,
        }
    }

    fn u32_at(&mut self, at: u64) -> Option<u32> {
        match self.from(at, 4) {
            Some(bytes) => Some(LittleEndian::read_u32(bytes)),
            None => None,
        }
    }

    fn u64_at(&mut self, at: u64) -> Option<u64> {
        match self.from(at, 8) {
            Some(bytes) => Some(LittleEndian::read_u64(bytes)),
            None => None,
        }
    }
}

/// A file's version, the longest of its payloads, how much later the first entry of a CPU is than that of the one before it, and the part
/// of the blocks that is looked at at most, as one of so many.
struct Row {
    version: u8,
    longest: usize,
    later: u64,
    part: usize,
}

const ROWS: [Row; 4] = [
    Row {
        version: b'1',
        longest: 300,
        later: 0,
        part: 4,
    },
    Row {
        version: b'2',
        longest: 300,
        later: 0,
        part: 4,
    },
    // No time is earlier than one before it.
    Row {
        version: b'2',
        longest: 300,
        later: 40_000,
        part: 1,
    },
    // Payloads that are longer than what is searched for an entry.
    Row {
        version: b'1',
        longest: 9_000,
        later: 0,
        part: 1,
    },
];

/// How many entries each CPU has.
const COUNTS: [u32; 5] = [30_000, 12, 0, 20_000, 5_000];

/// A header for five CPUs and one format, from 0 to 1,000,000, but for its first 8 bytes; and the format.
const FRONT: &[u8] = b"\x05\0\0\0\x01\0\0\0\0\0\0\0\0\0\0\0\x40\x42\x0f\0\0\0\0\0\
\x01\0t\x16\0\0\0name: f\n\
ID: 8\n\
format:\n";

/// The lengths of payloads, in turn; the last stands for the longest.
const LENGTHS: [usize; 6] = [2, 70, 11, 129, 40, 0];

const ZEROS: [u8; 9_000] = [0; 9_000];

/// Puts an event behind a file.
fn push_event(file: &mut Vec<u8>, time: u64, length: usize) -> Result<(), Memory> {
    let payload = &ZEROS[..length.min(ZEROS.len())];
    file.extend_from_slice(&time.to_le_bytes())?;
    file.extend_from_slice(&ZEROS[..32])?;
    file.extend_from_slice(&(payload.len() as u32).to_le_bytes())?;
    file.extend_from_slice(payload)?;
    Ok(())
}

/// Puts a mark behind a file.
fn push_mark(file: &mut Vec<u8>, time: u64) -> Result<(), Memory> {
    file.push(1)?;
    file.extend_from_slice(&time.to_le_bytes())?;
    file.extend_from_slice(&7u64.to_le_bytes())?;
    Ok(())
}

/// Puts an entry behind a file. In version 2 each seventh one is a mark.
fn push_entry(file: &mut Vec<u8>, row: &Row, place: u32, time: u64) -> Result<(), Memory> {
    let length = match LENGTHS[place as usize % LENGTHS.len()] {
        0 if place % 600 == 5 => row.longest,
        length => length,
    };
    if row.version == b'1' {
        return push_event(file, time, length);
    }
    if place % 7 == 0 {
        return push_mark(file, time);
    }
    file.push(0)?;
    push_event(file, time, length)
}

/// Puts a CPU with so many entries behind a file. Each is one nanosecond later than the one before it.
fn push_cpu(file: &mut Vec<u8>, row: &Row, number: u32, count: u32) -> Result<(), Memory> {
    file.extend_from_slice(&number.to_le_bytes())?;
    file.extend_from_slice(&count.to_le_bytes())?;
    let first = row.later.saturating_mul(u64::from(number));
    for place in 0..count {
        push_entry(file, row, place, first.saturating_add(u64::from(place)))?;
    }
    Ok(())
}

/// The file of a row, and where the heads of its CPUs begin.
fn made(alloc: Global, row: &Row) -> Result<(Vec<u8>, Vec<u64>), Memory> {
    let mut file = Vec::from_slice(alloc, b"BTRACE0")?;
    let mut heads = Vec::new(alloc);
    file.push(row.version)?;
    file.extend_from_slice(FRONT)?;
    for (number, count) in COUNTS.iter().enumerate() {
        heads.push(file.len() as u64)?;
        push_cpu(&mut file, row, number as u32, *count)?;
    }
    Ok((file, heads))
}

/// Whether the heads of a row's file are found, by looks at the part of its blocks that the row says.
fn are_found(alloc: Global, row: &Row) -> Result<bool, Memory> {
    let (file, heads) = made(alloc, row)?;
    let mut noted = Noted::of(alloc, file.as_slice())?;
    let found = BeforeCpus.cuts(alloc, &mut noted)?;
    let (looked, blocks) = noted.shares();
    Ok(found.as_slice() == heads.as_slice() && looked <= blocks / row.part.max(1))
}

#[test]
fn heads_of_cpus_are_found_by_few_looks(rt: HostRuntime) -> Result<(), Fail> {
    for row in &ROWS {
        assert!(rt; are_found(rt.alloc(), row)?);
    }
    Ok(())
}
