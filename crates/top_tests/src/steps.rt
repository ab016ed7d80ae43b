// The steps that are handed back.
use crate::files::{AT_0, AT_1, AT_2, AT_3, Answer, HEAD, ONE, ONE_EACH, REST, VALUE, answer_to};
use bt_core::memory::Memory;
use bt_core::step::{Op, Step};
use std::alloc::Global;
use std::test::Fail;
use turn_lock::gate::Open;

/// What an operation is called.
fn name_of(op: &Op) -> &str {
    match op {
        Op::Get(_) => "get",
        Op::Set(_, _) => "set",
        Op::ReadAll => "read",
        Op::Clear => "clear",
        Op::Read(_) => "read table",
        Op::Add(_, _, _) => "add",
        Op::Check => "check",
        Op::Stop => "stop",
        Op::Emit(_) => "emit",
        _ => "another",
    }
}

/// A mark of five lost events, behind its first byte and its time.
const FIVE_LOST: &[u8] = b"\x05\0\0\0\0\0\0\0";

/// A recording whose one CPU has an event, a mark and an event.
const MARKED_BETWEEN: [&[u8]; 14] = [
    b"BTRACE02\x01\0\0\0",
    HEAD,
    b"\0\0\0\0\x03\0\0\0",
    b"\0",
    AT_1,
    REST,
    VALUE,
    b"\x01",
    AT_2,
    FIVE_LOST,
    b"\0",
    AT_3,
    REST,
    VALUE,
];

/// A recording whose one CPU has an event and a mark.
const MARKED_BEHIND: [&[u8]; 10] = [
    b"BTRACE02\x01\0\0\0",
    HEAD,
    b"\0\0\0\0\x02\0\0\0",
    b"\0",
    AT_1,
    REST,
    VALUE,
    b"\x01",
    AT_2,
    FIVE_LOST,
];

/// A recording whose one CPU has five events.
const FIVE: [&[u8]; 18] = [
    b"BTRACE01\x01\0\0\0",
    HEAD,
    b"\0\0\0\0\x05\0\0\0",
    AT_0,
    REST,
    VALUE,
    AT_1,
    REST,
    VALUE,
    AT_2,
    REST,
    VALUE,
    AT_3,
    REST,
    VALUE,
    AT_3,
    REST,
    VALUE,
];

/// Words, a script, the parts of a recording, the output, and by whom each step is made and what it does.
type Row = (
    &'static [&'static str],
    &'static [u8],
    &'static [&'static [u8]],
    &'static [u8],
    &'static [(u32, &'static str)],
);

const ROWS: [Row; 5] = [
    // A mark is told between the events that it stands between.
    (
        &["run", "s.bt", "r.bin"],
        b"tracepoint:t:e { @ = count(); }",
        &MARKED_BETWEEN,
        b"WARNING: 5 events lost on cpu 0\n@: 2\n\n",
        &[(0, "add"), (0, "emit"), (0, "add")],
    ),
    // Nothing is told of a mark behind a stop.
    (
        &["run", "s.bt", "r.bin"],
        b"tracepoint:t:e { exit(); }",
        &MARKED_BEHIND,
        b"",
        &[(0, "check"), (0, "stop"), (0, "check")],
    ),
    // An increment is a get and a set.
    (
        &["run", "--serial", "s.bt", "r.bin"],
        b"tracepoint:t:e { @x++; }",
        &ONE_EACH,
        b"@x: 2\n\n",
        &[(0, "get"), (0, "set"), (1, "get"), (1, "set")],
    ),
    // A map is read and cleared in each of its eight parts.
    (
        &["run", "s.bt", "r.bin"],
        b"BEGIN { @m[1] = 1; @m[9] = 2; @m[2] = 3; print(@m); clear(@m); }",
        &ONE,
        b"@m[1]: 1\n@m[9]: 2\n@m[2]: 3\n\n",
        &[
            (1, "set"),
            (1, "set"),
            (1, "set"),
            (1, "read"),
            (1, "read"),
            (1, "read"),
            (1, "read"),
            (1, "read"),
            (1, "read"),
            (1, "read"),
            (1, "read"),
            (1, "emit"),
            (1, "clear"),
            (1, "clear"),
            (1, "clear"),
            (1, "clear"),
            (1, "clear"),
            (1, "clear"),
            (1, "clear"),
            (1, "clear"),
        ],
    ),
    // A read of an aggregation asks the table of the CPU and that of `BEGIN` and `END`.
    (
        &["run", "s.bt", "r.bin"],
        b"tracepoint:t:e { @c = count(); if (@c == 3) { @hit = count(); } }",
        &FIVE,
        b"@c: 5\n\n@hit: 1\n\n",
        &[
            (0, "add"),
            (0, "read table"),
            (0, "read table"),
            (0, "add"),
            (0, "read table"),
            (0, "read table"),
            (0, "add"),
            (0, "read table"),
            (0, "read table"),
            (0, "add"),
            (0, "add"),
            (0, "read table"),
            (0, "read table"),
            (0, "add"),
            (0, "read table"),
            (0, "read table"),
        ],
    ),
];

/// Whether steps are by these actors, do this, and have the stamps from 1 on.
fn are_these(made: &[Step], wanted: &[(u32, &str)]) -> bool {
    if made.len() != wanted.len() {
        return false;
    }
    let mut stamp = 1u64;
    for (step, (actor, name)) in made.iter().zip(wanted) {
        if step.actor != *actor || step.stamp != stamp || name_of(&step.op) != *name {
            return false;
        }
        stamp = stamp.saturating_add(1);
    }
    true
}

/// Whether these steps are handed back.
fn hands_back(alloc: Global, answer: &Answer, wanted: &[(u32, &str)]) -> Result<bool, Memory> {
    match &answer.report.work {
        Some(work) => Ok(are_these(work.steps.to_vec(alloc)?.as_slice(), wanted)),
        None => Ok(false),
    }
}

#[test]
fn steps_are_handed_back_in_their_order(rt: HostRuntime) -> Result<(), Fail> {
    let alloc = rt.alloc();
    for (place, (words, script, parts, told, steps)) in ROWS.iter().enumerate() {
        let answer = answer_to(&rt, alloc, *words, *script, *parts, &Open)?;
        assert!(rt; answer.is(*told), "row {place}");
        assert!(rt; hands_back(alloc, &answer, *steps)?, "row {place}");
    }
    Ok(())
}

/// A script that counts, reads the count, and counts where it is 2.
const SECOND: &[u8] = b"tracepoint:t:e { @c = count(); if (@c == 2) { @hit = count(); } }";

/// The words that run a script on one thread.
const SERIAL: [&str; 4] = ["run", "--serial", "s.bt", "r.bin"];

#[test]
fn a_read_asks_three_tables_where_there_are_two_cpus(rt: HostRuntime) -> Result<(), Fail> {
    let answer = answer_to(&rt, rt.alloc(), &SERIAL, SECOND, &ONE_EACH, &Open)?;
    assert!(rt; answer.is(b"@c: 2\n\n@hit: 1\n\n"));
    assert_eq!(rt; answer.steps(), Some(9));
    Ok(())
}
