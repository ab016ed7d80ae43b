// Where the entries of each CPU lie in a recording, by looks at a few places of it, or else by all lengths in it.
//
// Nothing is checked and nothing is promised of what is found: it says where a recording is cut to be read side by side, and who reads
// the parts checks them.
use crate::jumps::heads_by_looks;
use bt_core::limits::CPUS;
use bt_core::memory::Memory;
use bt_io::parts::{Cutter, Peek};
use std::alloc::Global;

/// Bytes of a header.
const HEADER_BYTES: u64 = 32;

/// Where a header tells the last digit of the version, the number of CPUs, that of formats, the start and the end.
const VERSION_AT: u64 = 7;

const CPUS_AT: u64 = 8;

const FORMATS_AT: u64 = 12;

const START_AT: u64 = 16;

const END_AT: u64 = 24;

/// Bytes of the head of a CPU, and where it tells how many entries follow.
pub(crate) const HEAD_BYTES: u64 = 8;

pub(crate) const COUNT_AT: u64 = 4;

/// Bytes of an event before its payload, and where the length of that is told.
pub(crate) const EVENT_BYTES: u64 = 44;

const LENGTH_AT: u64 = 40;

/// Bytes of a mark, with the byte that tells its kind.
const MARK_BYTES: u64 = 17;

/// Cuts a recording before the head of each CPU.
#[derive(Clone, Copy)]
pub struct BeforeCpus;

impl Cutter for BeforeCpus {
    fn cuts<P: Peek>(&self, alloc: Global, file: &mut P) -> Result<Vec<u64>, Memory> {
        let Some(heads) = heads_at(file) else {
            return Ok(Vec::new(alloc));
        };
        let places = heads_by_looks(alloc, file, heads)?;
        if places.len() == heads.cpus as usize {
            Ok(places)
        } else {
            heads_by_lengths(alloc, file, heads)
        }
    }
}

/// Where the heads of so many CPUs begin, whether a byte tells the kind of each entry, and between which times entries lie.
#[derive(Clone, Copy)]
pub(crate) struct Heads {
    pub at: u64,
    pub cpus: u32,
    pub marks: bool,
    pub start: u64,
    pub end: u64,
}

/// What the header and the lengths of the formats tell, if there are not more CPUs than a recording may have.
fn heads_at<P: Peek>(file: &mut P) -> Option<Heads> {
    let Some(version) = file.u8_at(VERSION_AT) else {
        return None;
    };
    let Some(cpus) = file.u32_at(CPUS_AT) else {
        return None;
    };
    let Some(formats) = file.u32_at(FORMATS_AT) else {
        return None;
    };
    let Some(start) = file.u64_at(START_AT) else {
        return None;
    };
    let Some(end) = file.u64_at(END_AT) else {
        return None;
    };
    if cpus > CPUS {
        return None;
    }
    match behind_formats(file, formats) {
        Some(at) => Some(Heads {
            at,
            cpus,
            marks: version != b'1',
            start,
            end,
        }),
        None => None,
    }
}

/// The place behind so many formats.
fn behind_formats<P: Peek>(file: &mut P, formats: u32) -> Option<u64> {
    let mut at = HEADER_BYTES;
    for _ in 0..formats {
        let Some(system) = file.u16_at(at) else {
            return None;
        };
        at = at.saturating_add(2 + u64::from(system));
        let Some(text) = file.u32_at(at) else {
            return None;
        };
        at = at.saturating_add(4 + u64::from(text));
    }
    Some(at)
}

/// The places of all heads, up to the first behind whose entries none is found. Behind the last CPU nothing is looked for.
fn heads_by_lengths<P: Peek>(
    alloc: Global,
    file: &mut P,
    heads: Heads,
) -> Result<Vec<u64>, Memory> {
    let mut places = Vec::new(alloc);
    let mut at = heads.at;
    for cpu in 0..heads.cpus {
        places.push(at)?;
        if cpu + 1 >= heads.cpus {
            break;
        }
        let Some(behind) = behind_cpu(file, heads.marks, at) else {
            break;
        };
        at = behind;
    }
    Ok(places)
}

/// The place behind the CPU whose head is at a place.
pub(crate) fn behind_cpu<P: Peek>(file: &mut P, marks: bool, head: u64) -> Option<u64> {
    let Some(count) = file.u32_at(head.saturating_add(COUNT_AT)) else {
        return None;
    };
    let mut at = head.saturating_add(HEAD_BYTES);
    for _ in 0..count {
        let Some(behind) = behind_entry(file, marks, at) else {
            return None;
        };
        at = behind;
    }
    Some(at)
}

/// The place behind the entry at a place.
pub(crate) fn behind_entry<P: Peek>(file: &mut P, marks: bool, at: u64) -> Option<u64> {
    if !marks {
        return behind_event(file, at);
    }
    match file.u8_at(at) {
        Some(0) => behind_event(file, at.saturating_add(1)),
        Some(1) => Some(at.saturating_add(MARK_BYTES)),
        _ => None,
    }
}

/// The place behind the event at a place.
fn behind_event<P: Peek>(file: &mut P, at: u64) -> Option<u64> {
    match file.u32_at(at.saturating_add(LENGTH_AT)) {
        Some(length) => Some(at.saturating_add(EVENT_BYTES + u64::from(length))),
        None => None,
    }
}
