// The programs that are handed back: their listings, and how many instructions they take.
use crate::files::{AT_0, AT_1, AT_2, Answer, HEAD, REST, answer_to};
use crate::machine::instructions_of;
use bpf_encode::program::Program;
use bt_core::memory::Memory;
use std::alloc::Global;
use std::test::Fail;
use turn_lock::gate::Open;

/// A recording of one CPU without events.
const NO_EVENTS: [&[u8]; 3] = [b"BTRACE01\x01\0\0\0", HEAD, b"\0\0\0\0\0\0\0\0"];

/// The words that list the code.
const CODE: [&str; 3] = ["code", "s.bt", "r.bin"];

/// Scripts, and how many bodies they have.
const LISTED: [(&[u8], usize); 2] = [
    (b"tracepoint:t:e { @ = count(); }", 1),
    (
        b"BEGIN { exit(); } interval:s:1 { exit(); } END, tracepoint:t:* { exit(); }",
        4,
    ),
];

/// How many lines a listing of these programs has: one for each body and one for each slot.
fn lines_of(programs: &[Program]) -> usize {
    let mut lines = programs.len();
    for program in programs {
        lines = lines.saturating_add(program.bytes.len() / 8);
    }
    lines
}

/// How many lines a text has.
fn count_lines(text: &[u8]) -> usize {
    text.iter().filter(|byte| **byte == b'\n').count()
}

#[test]
fn a_listing_has_a_line_for_each_slot(rt: HostRuntime) -> Result<(), Fail> {
    let alloc = rt.alloc();
    for (script, bodies) in &LISTED {
        let answer = answer_to(&rt, alloc, &CODE, *script, &NO_EVENTS, &Open)?;
        let programs = answer.report.programs.as_slice();
        assert!(rt; answer.report.status == 0 && answer.report.work.is_none());
        assert_eq!(rt; programs.len(), *bodies);
        assert_eq!(rt; count_lines(answer.out.taken()), lines_of(programs));
    }
    Ok(())
}

/// A recording of one CPU with three events, of the values 1, 2 and -4.
const THREE_EVENTS: [&[u8]; 12] = [
    b"BTRACE01\x01\0\0\0",
    HEAD,
    b"\0\0\0\0\x03\0\0\0",
    AT_0,
    REST,
    b"\x01\0\0\0\0\0\0\0",
    AT_1,
    REST,
    b"\x02\0\0\0\0\0\0\0",
    AT_2,
    REST,
    b"\xfc\xff\xff\xff\xff\xff\xff\xff",
];

/// A script that adds the values whose half is positive.
const HALVES: &[u8] = b"tracepoint:t:e /args.v / 2 > 0/ { @ = sum(args.v); }";

/// The words of a run that tells the instructions, on one thread and on threads.
const STATS: [&[&str]; 2] = [
    &["run", "--serial", "--stats", "s.bt", "r.bin"],
    &["run", "--stats", "s.bt", "r.bin"],
];

/// How many instructions the one program of an answer takes at the three events.
fn total_of(alloc: Global, answer: &Answer) -> Result<u64, Fail> {
    let [program] = answer.report.programs.as_slice() else {
        return Err(Fail::from("not one program"));
    };
    let mut total = 0;
    for value in [1, 2, -4] {
        total = instructions_of(alloc, program, value)?.saturating_add(total);
    }
    Ok(total)
}

/// Whether an answer tells so many instructions, and its work was so many.
fn tells(alloc: Global, answer: &Answer, total: u64) -> Result<bool, Memory> {
    let text = format!(in alloc; "@: 2\n\ninstructions: {total}\n")?;
    Ok(match &answer.report.work {
        Some(work) => work.instructions == total && answer.is(text.as_bytes()),
        None => false,
    })
}

#[test]
fn the_instructions_are_those_of_the_programs(rt: HostRuntime) -> Result<(), Fail> {
    let alloc = rt.alloc();
    for words in STATS {
        let answer = answer_to(&rt, alloc, words, HALVES, &THREE_EVENTS, &Open)?;
        let total = total_of(alloc, &answer)?;
        assert!(rt; 3 < total);
        assert!(rt; tells(alloc, &answer, total)?, "{words:?}");
    }
    Ok(())
}
