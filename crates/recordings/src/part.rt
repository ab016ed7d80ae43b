// Events and marks at the front of bytes.
ghost use Rattle.std.specs.Prelude.{◌≡◌};
ghost use Rattle.std.specs.Option.{option_map};
ghost use Rattle.recordings.specs.Fronts.{bytes_at, event_part, event_at, entry_part, mark_at};

use crate::number::{sized32_at, u32_at, u64_at};

/// An event, with its payload where it lies.
#[derive(Clone, Copy)]
pub struct EventBytes<'b> {
    /// In nanoseconds.
    pub time: u64,
    /// The process of the thread that ran.
    pub pid: u32,
    /// The thread that ran.
    pub tid: u32,
    /// The user of the process.
    pub uid: u32,
    /// The group of the process.
    pub gid: u32,
    /// The name of the thread, which ends before the first zero byte.
    pub comm: [u8; 16],
    /// What the tracepoint wrote.
    pub payload: &'b [u8],
}

/// An entry: an event, the mark of lost ones, or a byte with which no entry begins.
#[derive(Clone, Copy)]
pub enum EntryBytes<'b> {
    /// An event.
    Event(EventBytes<'b>),
    /// So many events were lost, as was told at a time in nanoseconds.
    Lost {
        /// In nanoseconds.
        time: u64,
        /// How many were lost.
        count: u64,
    },
    /// No entry begins with this byte.
    Unknown(u8),
}

/// Sixteen bytes, and what follows them.
#[inline(always)]
fn comm_at(bytes: &[u8]) -> Option<([u8; 16], &[u8])>
    ensures { option_map (λ part. (part.0, part.1.now)) result ≡ bytes_at 16 bytes.now }
{
    if bytes.len() < 16 {
        return None;
    }
    let mut comm = [0; 16];
    comm.copy_from_slice(&bytes[..16]);
    Some((comm, &bytes[16..]))
}

/// An event, and what follows it.
#[tactic(auto, unfolding(crate::specs::Fronts::event_at))]
#[inline(always)]
pub fn event_at(bytes: &[u8]) -> Option<(EventBytes<'_>, &[u8])>
    ensures { option_map (λ part. (event_part part.0, part.1.now)) result ≡ event_at bytes.now }
{
    let Some((time, bytes)) = u64_at(bytes) else {
        return None;
    };
    let Some((pid, bytes)) = u32_at(bytes) else {
        return None;
    };
    let Some((tid, bytes)) = u32_at(bytes) else {
        return None;
    };
    let Some((uid, bytes)) = u32_at(bytes) else {
        return None;
    };
    let Some((gid, bytes)) = u32_at(bytes) else {
        return None;
    };
    let (comm, bytes) = comm_at(bytes)?;
    let Some((payload, rest)) = sized32_at(bytes) else {
        return None;
    };
    let event = EventBytes {
        time,
        pid,
        tid,
        uid,
        gid,
        comm,
        payload,
    };
    Some((event, rest))
}

/// A mark, and what follows it.
#[tactic(auto, unfolding(crate::specs::Fronts::mark_at))]
pub fn mark_at(bytes: &[u8]) -> Option<(EntryBytes<'_>, &[u8])>
    ensures { option_map (λ part. (entry_part part.0, part.1.now)) result ≡ mark_at bytes.now }
{
    let Some((time, bytes)) = u64_at(bytes) else {
        return None;
    };
    let Some((count, rest)) = u64_at(bytes) else {
        return None;
    };
    Some((EntryBytes::Lost { time, count }, rest))
}
