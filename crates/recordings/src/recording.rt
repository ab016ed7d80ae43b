// Recordings of tracepoint events.
use crate::entries::Entries;
use bt_core::items::Items;
use event_layout::format::Format;

/// A recording: when it starts and ends, its event formats, and the entries of each CPU.
///
/// Times are in nanoseconds, on one clock of the recording's own. `IsValidRecording` says which
/// recordings are valid; the others have no file.
pub struct Recording {
    /// 1, whose CPUs have events alone, or 2, whose CPUs may have marks of lost events as well.
    pub version: u32,
    /// No entry is before it.
    pub start: u64,
    /// No entry is after it.
    pub end: u64,
    /// At most 4,096, no two with one ID, or with one system and name.
    pub formats: Items<Format>,
    /// 1 to 64, by ascending numbers.
    pub cpus: Items<CpuTrack>,
}

// Written out, so that it is one call wherever such a value is let go.
impl Drop for Recording {
    fn drop(self) {
        let Self {
            version: _,
            start: _,
            end: _,
            formats: _,
            cpus: _,
        } = self;
    }
}

/// The entries of a CPU, in the order of their times.
pub struct CpuTrack {
    /// The number that the recorded machine gives the CPU.
    pub number: u32,
    /// Over all CPUs at most 1,048,576.
    pub entries: Entries,
}

// Written out, so that it is one call wherever such a value is let go.
impl Drop for CpuTrack {
    fn drop(self) {
        let Self {
            number: _,
            entries: _,
        } = self;
    }
}

/// What a CPU's track holds: an event, or the mark that the kernel lost some.
pub enum Entry {
    /// An event.
    Event(Event),
    /// So many events were lost, as was told at a time in nanoseconds.
    Lost {
        /// In nanoseconds.
        time: u64,
        /// 1 or more.
        count: u64,
    },
}

// Written out, so that it is one call wherever such a value is let go.
impl Drop for Entry {
    fn drop(self) {
        match self {
            Entry::Event(_) | Entry::Lost { time: _, count: _ } => {}
        }
    }
}

/// An event: what the kernel knew of its moment, and the bytes that the tracepoint wrote.
pub struct Event {
    /// In nanoseconds.
    pub time: u64,
    /// The process of the thread that ran.
    pub pid: u32,
    /// The thread that ran.
    pub tid: u32,
    /// The user of the process.
    pub uid: u32,
    /// The group of the process.
    pub gid: u32,
    /// The name of the thread, which ends before the first zero byte.
    pub comm: [u8; 16],
    /// The place of its format in the recording, counted from 0.
    pub format: u32,
    /// Its first two bytes are the ID of its format, the lower first.
    pub payload: Items<u8>,
}

// Written out, so that it is one call wherever such a value is let go.
impl Drop for Event {
    fn drop(self) {
        let Self {
            time: _,
            pid: _,
            tid: _,
            uid: _,
            gid: _,
            comm: _,
            format: _,
            payload: _,
        } = self;
    }
}
