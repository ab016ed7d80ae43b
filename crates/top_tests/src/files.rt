// Recordings by their parts, files under their names, and calls over them.
use bt_core::memory::Memory;
use bt_io::shelf::Shelf;
use bt_top::report::Report;
use bt_top::serve::serve;
use mem_io::mem_shelf::MemShelf;
use mem_io::mem_sink::MemSink;
use std::alloc::Global;
use std::sync::Wait;
use std::thread::Threads;
use turn_lock::gate::Gate;

/// What stands in a recording behind the magic and the number of its CPUs: one format, of an event `e` with one field, and the time from 0
/// to two seconds.
pub const HEAD: &[u8] = b"\x01\0\0\0\0\0\0\0\0\0\0\0\0\x94\x35\x77\0\0\0\0\
\x01\0t\x41\0\0\0name: e\n\
ID: 7\n\
format:\n\
\tfield:long v;\toffset:8;\tsize:8;\tsigned:1;\n";

/// What stands behind the time of an event `e`, up to the value of its field.
pub const REST: &[u8] = b"\x01\0\0\0\x01\0\0\0\0\0\0\0\0\0\0\0bash\0\0\0\0\0\0\0\0\0\0\0\0\
\x10\0\0\0\x07\0\0\0\0\0\0\0";

/// The value 42.
pub const VALUE: &[u8] = b"\x2a\0\0\0\0\0\0\0";

/// The time 0.
pub const AT_0: &[u8] = b"\0\0\0\0\0\0\0\0";

/// The time 1.
pub const AT_1: &[u8] = b"\x01\0\0\0\0\0\0\0";

/// The time 2.
pub const AT_2: &[u8] = b"\x02\0\0\0\0\0\0\0";

/// The time 3.
pub const AT_3: &[u8] = b"\x03\0\0\0\0\0\0\0";

/// What stands before the entries of the CPU 0 that has one.
pub const FIRST_WITH_ONE: &[u8] = b"\0\0\0\0\x01\0\0\0";

/// A recording of one CPU with one event `e`.
pub const ONE: [&[u8]; 6] = [
    b"BTRACE01\x01\0\0\0",
    HEAD,
    FIRST_WITH_ONE,
    AT_0,
    REST,
    VALUE,
];

/// A recording of two CPUs with one event `e` each.
pub const ONE_EACH: [&[u8]; 10] = [
    b"BTRACE01\x02\0\0\0",
    HEAD,
    FIRST_WITH_ONE,
    AT_0,
    REST,
    VALUE,
    b"\x01\0\0\0\x01\0\0\0",
    AT_0,
    REST,
    VALUE,
];

/// Parts as one.
pub fn joined(alloc: Global, parts: &[&[u8]]) -> Result<Vec<u8>, Memory> {
    let mut bytes = Vec::new(alloc);
    for part in parts {
        bytes.extend_from_slice(part)?;
    }
    Ok(bytes)
}

/// A file of this name.
fn file(alloc: Global, name: &str, bytes: Vec<u8>) -> Result<(String, Vec<u8>), Memory> {
    Ok((String::from_str(alloc, name)?, bytes))
}

/// A script and a recording under their names.
pub fn files(
    alloc: Global,
    script: &[u8],
    recording: Vec<u8>,
) -> Result<Vec<(String, Vec<u8>)>, Memory> {
    let recording = file(alloc, "r.bin", recording)?;
    let script = file(alloc, "s.bt", Vec::from_slice(alloc, script)?)?;
    Ok(vec![in alloc; script, recording]?)
}

/// Words as owned texts.
fn words_of(alloc: Global, asked: &[&str]) -> Result<Vec<String>, Memory> {
    let mut words = Vec::new(alloc);
    for word in asked {
        words.push(String::from_str(alloc, word)?)?;
    }
    Ok(words)
}

/// What a call answers to words on files and sinks.
pub fn report_on<S: Shelf, G: Gate + Sync, R: Threads + Wait + Sync>(
    rt: &R,
    alloc: Global,
    asked: &[&str],
    shelf: &mut S,
    out: &mut MemSink,
    err: &mut MemSink,
    gate: &G,
) -> Result<Report, Memory> {
    let words = words_of(alloc, asked)?;
    Ok(serve(rt, alloc, words.as_slice(), shelf, out, err, gate))
}

/// What a call answered, and what it wrote to its output.
pub struct Answer {
    pub report: Report,
    pub out: MemSink,
}

// Written out, so that it is one call wherever such a value is let go.
impl Drop for Answer {
    fn drop(self) {
        let Self { report: _, out: _ } = self;
    }
}

impl Answer {
    /// The number of the steps that were made, where there is work.
    pub fn steps(&self) -> Option<usize> {
        let work = self.report.work.as_ref()?;
        Some(work.steps.len())
    }

    /// Whether the call ended well, and wrote this.
    pub fn is(&self, told: &[u8]) -> bool {
        self.report.status == 0 && self.out.taken() == told
    }
}

/// The answer to words over a script and the parts of a recording, on a shelf and sinks that do not fail.
pub fn answer_to<G: Gate + Sync, R: Threads + Wait + Sync>(
    rt: &R,
    alloc: Global,
    asked: &[&str],
    script: &[u8],
    recording: &[&[u8]],
    gate: &G,
) -> Result<Answer, Memory> {
    answer_over(rt, alloc, asked, script, joined(alloc, recording)?, gate)
}

/// The same over the bytes of a recording.
pub fn answer_over<G: Gate + Sync, R: Threads + Wait + Sync>(
    rt: &R,
    alloc: Global,
    asked: &[&str],
    script: &[u8],
    recording: Vec<u8>,
    gate: &G,
) -> Result<Answer, Memory> {
    let files = files(alloc, script, recording)?;
    let mut shelf = MemShelf::new(alloc, files, Vec::new(alloc));
    let mut out = MemSink::new(alloc, 1 << 20, 4096, Vec::new(alloc))?;
    let mut err = MemSink::new(alloc, 4096, 4096, Vec::new(alloc))?;
    let report = report_on(rt, alloc, asked, &mut shelf, &mut out, &mut err, gate)?;
    Ok(Answer { report, out })
}
