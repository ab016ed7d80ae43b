// Faults of files and sinks, want of memory, and a long recording.
ghost use Rattle.std.specs.Prelude.{◌-◌, ◌^◌, None, []};

use crate::files::{AT_0, AT_1, AT_2, HEAD, REST, VALUE, answer_over, files, joined, report_on};
use crate::machine::instructions_of;
use bt_core::items::Items;
use bt_core::memory::Memory;
use bt_io::shelf::{Shelf, ShelfError};
use bt_top::report::Report;
use mem_io::mem_shelf::MemShelf;
use mem_io::mem_sink::MemSink;
use std::alloc::Global;
use std::test::Fail;
use turn_lock::gate::Open;

/// A script that counts the events `e`.
const COUNT: &[u8] = b"tracepoint:t:e { @ = count(); }";

/// The words that run it.
const RUN: [&str; 3] = ["run", "s.bt", "r.bin"];

/// A recording of one CPU with 1,048,576 events.
fn million(alloc: Global) -> Result<Vec<u8>, Memory> {
    let mut recording = joined(alloc, &[b"BTRACE01\x01\0\0\0", HEAD, b"\0\0\0\0\0\0\x10\0"])?;
    for time in 0..1_048_576u64 {
        recording.extend_from_slice(&time.to_le_bytes())?;
        recording.extend_from_slice(REST)?;
        recording.extend_from_slice(VALUE)?;
    }
    Ok(recording)
}

#[test]
fn a_million_events_are_counted(rt: HostRuntime) -> Result<(), Fail> {
    let alloc = rt.alloc();
    let answer = answer_over(&rt, alloc, &RUN, COUNT, million(alloc)?, &Open)?;
    assert!(rt; answer.is(b"@: 1048576\n\n"));
    Ok(())
}

/// A recording of one CPU with three events `e`.
const THREE: [&[u8]; 12] = [
    b"BTRACE01\x01\0\0\0",
    HEAD,
    b"\0\0\0\0\x03\0\0\0",
    AT_0,
    REST,
    VALUE,
    AT_1,
    REST,
    VALUE,
    AT_2,
    REST,
    VALUE,
];

/// How many bytes a sink takes a call, of which the calls of these numbers fail.
type Taking = (usize, &'static [u32]);

/// Words, which reads fail, what the output and `err` take, the status, what both have then, and whether there is work.
type Row = (
    &'static [&'static str],
    &'static [u32],
    [Taking; 2],
    u8,
    &'static [u8],
    &'static [u8],
    bool,
);

const FAULTS: [Row; 4] = [
    // A fault of `err` too leaves a prefix of its line, and changes nothing else.
    (&RUN, &[], [(2, &[2]), (3, &[3])], 5, b"@:", b"write ", true),
    (
        &["check", "s.bt", "r.bin"],
        &[],
        [(1, &[3]), (64, &[])],
        5,
        b"ok",
        b"write fault\n",
        false,
    ),
    (
        &RUN,
        &[1],
        [(4096, &[]), (4096, &[])],
        4,
        b"",
        b"s.bt: read fault\n",
        false,
    ),
    (
        &RUN,
        &[2],
        [(4096, &[]), (4096, &[])],
        4,
        b"",
        b"r.bin: read fault\n",
        false,
    ),
];

/// Whether a report has the work of three events that are counted, with its text, its steps and the instructions of its
/// one program.
fn counts_three(alloc: Global, report: &Report) -> Result<bool, Fail> {
    let (Some(work), [program]) = (&report.work, report.programs.as_slice()) else {
        return Ok(false);
    };
    let one = instructions_of(alloc, program, 42)?;
    Ok(
        work.text.as_slice() == b"@: 3\n\n".as_slice()
            && work.steps.len() == 3
            && work.instructions == one.saturating_mul(3),
    )
}

/// A shelf and two sinks.
struct Bench {
    shelf: MemShelf,
    out: MemSink,
    err: MemSink,
}

// Written out, so that it is one call wherever such a value is let go.
impl Drop for Bench {
    fn drop(self) {
        let Self {
            shelf: _,
            out: _,
            err: _,
        } = self;
    }
}

/// A sink that takes so many bytes a call, of which the calls of these numbers fail.
fn sink_of(alloc: Global, taking: &Taking) -> Result<MemSink, Memory> {
    let failing = Vec::from_slice(alloc, taking.1)?;
    MemSink::new(alloc, 4096, taking.0.max(1), failing)
}

/// A shelf with the counting script and three events, of which these reads fail.
fn shelf_of(alloc: Global, failing: &[u32]) -> Result<MemShelf, Memory> {
    let files = files(alloc, COUNT, joined(alloc, &THREE)?)?;
    Ok(MemShelf::new(alloc, files, Vec::from_slice(alloc, failing)?))
}

/// The shelf and the sinks of a row.
fn bench_of(alloc: Global, failing: &[u32], takings: &[Taking; 2]) -> Result<Bench, Memory> {
    Ok(Bench {
        shelf: shelf_of(alloc, failing)?,
        out: sink_of(alloc, &takings[0])?,
        err: sink_of(alloc, &takings[1])?,
    })
}

#[test]
fn a_fault_leaves_a_prefix_and_the_work(rt: HostRuntime) -> Result<(), Fail> {
    let alloc = rt.alloc();
    for (words, failing, takings, status, told, line, works) in &FAULTS {
        let mut bench = bench_of(alloc, *failing, takings)?;
        let Bench { shelf, out, err } = &mut bench;
        let report = report_on(&rt, alloc, *words, shelf, out, err, &Open)?;
        assert!(rt; report.status == *status, "{line:?}");
        assert!(rt;
            bench.out.taken() == *told && bench.err.taken() == *line,
            "{line:?}"
        );
        assert!(rt; report.work.is_some() == *works, "{line:?}");
        assert!(rt; counts_three(alloc, &report)? == *works, "{line:?}");
    }
    Ok(())
}

/// A shelf that gives the script, and answers of the recording that it is too long, or that memory ran out. It tells no content.
#[derive(Drop)]
struct Refusing {
    is_long: bool,
    asked: Items<Items<u8>>,
}

impl Shelf for Refusing {
    ghost held = { λ s name. None };

    ghost faults = { λ s. 2 ^ 64 - 1 };

    ghost asked = { λ s. s.asked };

    ghost failed = { λ s. [] };

    fn read(&mut self, alloc: Global, name: &str, limit: u64) -> Result<Vec<u8>, ShelfError> {
        let Ok(kept) = Vec::from_slice(alloc, name.as_bytes()) else {
            return Err(ShelfError::Memory);
        };
        let Ok(()) = self.asked.push(Items::of(kept)) else {
            return Err(ShelfError::Memory);
        };
        if name == "r.bin" || limit < 50 {
            return Err(if self.is_long {
                ShelfError::TooLong
            } else {
                ShelfError::Memory
            });
        }
        Vec::from_slice(alloc, COUNT).map_err(|_| ShelfError::Memory)
    }
}

/// Whether the recording is too long, or memory runs out; the status; and the line that is told.
const REFUSED: [(bool, u8, &[u8]); 2] = [
    (true, 3, b"r.bin: recording too long\n"),
    (false, 6, b"out of memory\n"),
];

/// Whether the script was asked for, and then the recording.
fn asked_for_both(shelf: &Refusing) -> bool {
    match shelf.asked.as_slice() {
        [script, recording] => {
            script.as_slice() == b"s.bt".as_slice() && recording.as_slice() == b"r.bin".as_slice()
        }
        _ => false,
    }
}

#[test]
fn a_long_recording_and_want_of_memory_are_told(rt: HostRuntime) -> Result<(), Fail> {
    let alloc = rt.alloc();
    for (is_long, status, line) in &REFUSED {
        let mut shelf = Refusing {
            is_long: *is_long,
            asked: Items::new(alloc),
        };
        let mut out = MemSink::new(alloc, 4096, 4096, Vec::new(alloc))?;
        let mut err = MemSink::new(alloc, 4096, 4096, Vec::new(alloc))?;
        let report = report_on(&rt, alloc, &RUN, &mut shelf, &mut out, &mut err, &Open)?;
        assert!(rt; report.status == *status);
        assert!(rt; out.taken().is_empty() && err.taken() == *line);
        assert!(rt; asked_for_both(&shelf));
    }
    Ok(())
}
