// A recording in parts: its header and formats, and each CPU, which are read side by side.
ghost use Rattle.std.specs.Prelude.{◌≡◌, ◌<◌, length, slice_index_or, ℕ, [], IfOk, IfSome};
ghost use Rattle.std.specs.Arc.{arc_value};
ghost use Rattle.bt_io.specs.Parts.{joined};
ghost use Rattle.recordings.specs.InFile.{entries_in};
ghost use Rattle.rec_format.specs.Parted.{AreGathered, HasPartedTracks, IsFront, IsParted, IsTrackPart, shared_bytes};

use crate::check::{has_marks, version_of};
use crate::entries::{Setting, read_entries};
use crate::formats::{read_formats, read_header};
use crate::part::cpu_at;
use crate::table::FormatTable;
use bt_core::items::Items;
use bt_core::limits::EVENTS;
use bt_core::memory::Memory;
use recordings::entries::{Entries, EntryPlace};
use recordings::recording::{CpuTrack, Recording};
use std::alloc::{AllocError, Global};
use std::sync::Arc;
use std::thread;
use std::thread::Threads;

/// What the first part has, and nothing behind it.
#[derive(Drop)]
pub(crate) struct Front {
    pub version: u32,
    pub cpus: u32,
    pub start: u64,
    pub end: u64,
    pub formats: FormatTable,
}

/// The header and the formats, where they pass and are all that the bytes have.
fn read_front(alloc: Global, bytes: &[u8]) -> Option<Front>
    ensures { IfSome result (IsFront bytes.now) }
{
    let Ok((header, rest)) = read_header(bytes) else {
        return None;
    };
    let whole = bytes.len() as u64;
    let Ok((formats, rest)) = read_formats(alloc, whole, header.formats, rest) else {
        return None;
    };
    if !rest.is_empty() {
        return None;
    }
    Some(Front {
        version: version_of(header.magic),
        cpus: header.cpus,
        start: header.start,
        end: header.end,
        formats,
    })
}

/// The number of a CPU and where its entries lie, where they pass and are all that the bytes have.
fn read_places(alloc: Global, front: &Front, bytes: &[u8]) -> Option<(u32, Vec<EntryPlace>)>
    ensures { IfSome result (λ read. IsTrackPart front.now bytes.now (record { number = read.0; entries = entries_in bytes.now read.1.items })) }
{
    let Some((head, after)) = cpu_at(bytes) else {
        return None;
    };
    let setting = Setting {
        file: bytes,
        marks: has_marks(front.version),
        start: front.start,
        end: front.end,
        formats: &front.formats,
    };
    let Ok((places, rest)) = read_entries(alloc, &setting, 0, head.entries, after) else {
        return None;
    };
    if !rest.is_empty() {
        return None;
    }
    Some((head.number, places))
}

/// A CPU with its entries, where they pass and are all that the part has.
fn read_track(alloc: Global, front: &Front, part: &Arc<Vec<u8>, Global>) -> Option<CpuTrack>
    ensures { IfSome result (IsTrackPart front.now (arc_value part.now).items) }
{
    let Some((number, places)) = read_places(alloc, front, (**part).as_slice()) else {
        return None;
    };
    match Entries::of(part, places) {
        Ok(entries) => Some(CpuTrack { number, entries }),
        Err(_) => None,
    }
}

/// All CPUs, where each was read, their numbers rise, and they have no more entries than a recording may have.
fn tracks_of(alloc: Global, read: Vec<Option<CpuTrack>>) -> Result<Option<Items<CpuTrack>>, Memory>
    ensures { IfOk result (λ all. IfSome all (AreGathered read.items)) }
{
    let mut cpus = Items::new(alloc);
    let mut least = 0u64;
    let mut left = EVENTS as usize;
    for track in read {
        let Some(track) = track else {
            return Ok(None);
        };
        let count = track.entries.len();
        if u64::from(track.number) < least || count > left {
            return Ok(None);
        }
        least = u64::from(track.number) + 1;
        left -= count;
        cpus.push(track)?;
    }
    Ok(Some(cpus))
}

/// What is read of each part, on a thread of its own where threads can be started.
fn read_each<R: Threads + Sync>(
    rt: &R,
    alloc: Global,
    front: &Front,
    parts: &[Arc<Vec<u8>, Global>],
) -> Result<Vec<Option<CpuTrack>>, AllocError>
    ensures many { IfOk result (λ read. length read.items ≡ length parts.now) }
    ensures each { IfOk result (λ read. (i : ℕ) (d : _) → i < length parts.now
        → IfSome (slice_index_or read.items i d) (IsTrackPart front.now (slice_index_or (shared_bytes parts.now) i []))) }
{
    let read = |place: usize| -> Option<CpuTrack>
        requires { place < length parts.now }
        ensures { IfSome result (IsTrackPart front.entry.now (slice_index_or (shared_bytes parts.entry.now) place [])) }
    { read_track(alloc, front, &parts[place]) };
    thread::map_indices(rt, alloc, parts.len(), &read)
}

/// The CPUs that parts have.
fn read_tracks_on_threads<R: Threads + Sync>(
    rt: &R,
    alloc: Global,
    front: &Front,
    parts: &[Arc<Vec<u8>, Global>],
) -> Result<Option<Items<CpuTrack>>, Memory>
    ensures { IfOk result (λ all. IfSome all (HasPartedTracks front.now (length parts.now) (joined (shared_bytes parts.now)))) }
{
    let read = read_each(rt, alloc, front, parts)?;
    tracks_of(alloc, read)
}

/// The recording whose header and formats are the first part, and whose CPUs are the others, or `None` where it is not so, or where there
/// is a fault in it.
pub(crate) fn read_parted<R: Threads + Sync>(
    rt: &R,
    alloc: Global,
    parts: &[Arc<Vec<u8>, Global>],
) -> Result<Option<Recording>, Memory>
    ensures { IfOk result (λ read. IfSome read (IsParted (joined (shared_bytes parts.now)))) }
{
    let Some((first, others)) = parts.split_first() else {
        return Ok(None);
    };
    let Some(front) = read_front(alloc, (**first).as_slice()) else {
        return Ok(None);
    };
    if front.cpus as usize != others.len() {
        return Ok(None);
    }
    let Some(cpus) = read_tracks_on_threads(rt, alloc, &front, others)? else {
        return Ok(None);
    };
    Ok(Some(Recording {
        version: front.version,
        start: front.start,
        end: front.end,
        formats: front.formats.into_formats(),
        cpus,
    }))
}

/// Parts, each of which can be shared.
pub(crate) fn shared(
    alloc: Global,
    parts: Vec<Items<u8>>,
) -> Result<Vec<Arc<Vec<u8>, Global>>, Memory>
    ensures { IfOk result (λ files. shared_bytes files.items ≡ parts.items) }
{
    let mut files = Vec::new(alloc);
    for part in parts {
        let file = Arc::new(alloc, part.into_vec())?;
        files.push(file)?;
    }
    Ok(files)
}

/// The bytes of all parts.
pub(crate) fn whole(alloc: Global, parts: &[Arc<Vec<u8>, Global>]) -> Result<Vec<u8>, Memory>
    ensures { IfOk result (λ bytes. bytes.items ≡ joined (shared_bytes parts.now)) }
{
    let mut bytes = Vec::new(alloc);
    for part in parts {
        bytes.extend_from_slice((**part).as_slice())?;
    }
    Ok(bytes)
}
