// Where the entries of each CPU lie in a recording, found by looks at a few places of it.
//
// The times of a CPU's entries rise, and those of the next CPU begin anew. So where an entry is earlier than one that lies far before it,
// the head of a CPU lies between them. An entry is told from other bytes by a chain: its lengths lead to the next one, and so on, and the
// times rise on the way.
//
// Nothing is checked and nothing is promised of what is found, as in `sections`.
use crate::sections::{COUNT_AT, HEAD_BYTES, Heads, behind_cpu, behind_entry};
use bt_core::limits::EVENTS;
use bt_core::memory::Memory;
use bt_io::parts::Peek;
use std::alloc::Global;

/// A CPU of fewer entries is gone over entry by entry.
const FEW: u32 = 4_096;

/// How far apart the places are that are looked at first.
const STRIDE: u64 = 1_048_576;

/// How many strides are made at most in one CPU.
const STRIDES: u32 = 4_096;

/// How many bytes a chain goes through, and how many it is looked for in.
const REACH: u64 = 16_384;

const SEARCHED: u64 = 4_096;

/// How many entries a chain has at least, and at most, by the bytes that the shortest has.
const LINKS: u32 = 8;

const MOST_LINKS: u32 = 1_024;

/// What seems to be an entry: its time, and the place behind it.
#[derive(Clone, Copy)]
struct Seen {
    time: u64,
    behind: u64,
}

/// What lies at a place, if it can be an entry that is no earlier than a time.
fn entry_at<P: Peek>(file: &mut P, heads: Heads, at: u64, least: u64) -> Option<Seen> {
    let Some(time) = file.u64_at(at.saturating_add(u64::from(heads.marks))) else {
        return None;
    };
    if time < least || time > heads.end {
        return None;
    }
    match behind_entry(file, heads.marks, at) {
        Some(behind) => Some(Seen { time, behind }),
        None => None,
    }
}

/// The last of a chain of entries from a place on, which ends behind another place.
fn chain<P: Peek>(file: &mut P, heads: Heads, at: u64, until: u64) -> Option<Seen> {
    let Some(mut seen) = entry_at(file, heads, at, heads.start) else {
        return None;
    };
    for link in 1..MOST_LINKS {
        if seen.behind >= until {
            return if link >= LINKS { Some(seen) } else { None };
        }
        match entry_at(file, heads, seen.behind, seen.time) {
            Some(next) => seen = next,
            None => return None,
        }
    }
    None
}

/// An entry behind a place, if the bytes there lie within one CPU.
fn entry_behind<P: Peek>(file: &mut P, heads: Heads, place: u64) -> Option<Seen> {
    let until = place.saturating_add(REACH);
    for skipped in 0..SEARCHED {
        if let Some(seen) = chain(file, heads, place.saturating_add(skipped), until) {
            return Some(seen);
        }
    }
    None
}

/// An entry that lies little before the end of its CPU, and behind this one.
fn last_looked_at<P: Peek>(file: &mut P, heads: Heads, first: Seen) -> Seen {
    let mut last = first;
    let mut stride = STRIDE;
    for _ in 0..STRIDES {
        match entry_behind(file, heads, last.behind.saturating_add(stride)) {
            Some(seen) if seen.time >= last.time => last = seen,
            _ => stride /= 2,
        }
        if stride < REACH {
            break;
        }
    }
    last
}

/// The first place behind an entry at which no entry of its CPU lies.
fn end_of_cpu<P: Peek>(file: &mut P, heads: Heads, entry: Seen) -> Option<u64> {
    let mut seen = entry;
    for _ in 0..EVENTS {
        match entry_at(file, heads, seen.behind, seen.time) {
            Some(next) => seen = next,
            None => return Some(seen.behind),
        }
    }
    None
}

/// Whether the head of a CPU can lie at a place, behind a CPU of this number.
fn is_head<P: Peek>(file: &mut P, heads: Heads, number: u32, at: u64) -> bool {
    let Some(next) = file.u32_at(at) else {
        return false;
    };
    let Some(count) = file.u32_at(at.saturating_add(COUNT_AT)) else {
        return false;
    };
    let first = at.saturating_add(HEAD_BYTES);
    next > number && (count == 0 || entry_at(file, heads, first, heads.start).is_some())
}

/// The place behind the CPU whose head is at a place.
fn jumped<P: Peek>(file: &mut P, heads: Heads, head: u64) -> Option<u64> {
    let Some(count) = file.u32_at(head.saturating_add(COUNT_AT)) else {
        return None;
    };
    if count < FEW {
        return behind_cpu(file, heads.marks, head);
    }
    let first = head.saturating_add(HEAD_BYTES);
    match entry_at(file, heads, first, heads.start) {
        Some(first) => {
            let last = last_looked_at(file, heads, first);
            end_of_cpu(file, heads, last)
        }
        None => None,
    }
}

/// The place of the next head, behind the CPU whose head is at a place.
fn next_head<P: Peek>(file: &mut P, heads: Heads, head: u64) -> Option<u64> {
    let Some(number) = file.u32_at(head) else {
        return None;
    };
    match jumped(file, heads, head) {
        Some(at) if is_head(file, heads, number, at) => Some(at),
        _ => None,
    }
}

/// The places of heads, up to the first behind which none was found.
pub(crate) fn heads_by_looks<P: Peek>(
    alloc: Global,
    file: &mut P,
    heads: Heads,
) -> Result<Vec<u64>, Memory> {
    let mut places = Vec::new(alloc);
    let mut at = heads.at;
    for cpu in 0..heads.cpus {
        places.push(at)?;
        if cpu + 1 >= heads.cpus {
            break;
        }
        match next_head(file, heads, at) {
            Some(next) => at = next,
            None => break,
        }
    }
    Ok(places)
}
