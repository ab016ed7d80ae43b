// Worked scripts.
use body_fixtures::moments::{AT_MINUS_FOUR, AT_ONE, AT_TWO, LEFT, MAIN, Moment};
use body_fixtures::tables::{Does, Part, Row, Says, Under, holds};
use body_fixtures::worked::{HALVES, STOPS, TIMES, TOP};
use bt_core::ending::Ending;
use std::test::Fail;

/// The only CPU at events without fields of their own, of thread 5 at 100.
const ENTERED: Moment = Moment {
    time: 100,
    tid: 5,
    payload: b"\0\0\0\0\0\0\0\0",
    actor: 0,
    actors: 2,
};

/// Thread 6 at 200.
const LEFT_ALONE: Moment = Moment {
    time: 200,
    tid: 6,
    payload: b"\0\0\0\0\0\0\0\0",
    actor: 0,
    actors: 2,
};

/// The second CPU at the first tick, with the number of actors.
const TICK: Moment = Moment {
    time: 1_000_000_000,
    tid: 0,
    payload: b"",
    actor: 1,
    actors: 3,
};

/// The only CPU at events of the device 8388608 and the sector 100.
const ISSUED: Moment = Moment {
    time: 1_000_000,
    tid: 1,
    payload: b"\0\0\0\0\0\0\0\0\0\0\x80\0\0\0\0\0\x64\0\0\0\0\0\0\0",
    actor: 0,
    actors: 2,
};

/// The same 37 microseconds later.
const COMPLETED: Moment = Moment {
    time: 1_037_000,
    tid: 1,
    payload: b"\0\0\0\0\0\0\0\0\0\0\x80\0\0\0\0\0\x64\0\0\0\0\0\0\0",
    actor: 0,
    actors: 2,
};

const STEPS: &[u8] = b"tracepoint:t:e { @x++; }";

const COUNT_AND_PRINT: &[u8] = b"tracepoint:t:e { @ = count(); } interval:s:1 { print(@); }";

const COUNT_AND_CLEAR: &[u8] =
    b"tracepoint:t:e { @ = count(); } interval:s:1 { print(@); clear(@); }";

const BLOCKS: &[u8] = b"#!/usr/bin/env bpftrace\n\
BEGIN { printf(\"Tracing... Hit Ctrl-C to end.\\n\"); }\n\
tracepoint:block:block_rq_issue { @start[args.dev, args.sector] = nsecs; }\n\
tracepoint:block:block_rq_complete /@start[args.dev, args.sector]/ \
{ @usecs = hist((nsecs - @start[args.dev, args.sector]) / 1000); delete(@start[args.dev, args.sector]); }\n\
END { clear(@start); }\n";

const ZEROS: &[u8] = b"BEGIN { @a = 5; @s = \"x\"; } END { zero(@a); zero(@s); }";

/// The key of the block events.
const BLOCK: &[Part] = &[Part::N(8_388_608), Part::N(100)];

const ROWS: [Row; 23] = [
    // The start of a thread is set, read twice, and deleted; that of a thread without one is read once.
    (
        TIMES,
        0,
        ENTERED,
        &[],
        &[Does::Set(0, &[Part::N(5)], Part::N(100))],
        Ending::End,
    ),
    (
        TIMES,
        1,
        LEFT,
        &[Says::Value(Part::N(100)), Says::Value(Part::N(100))],
        &[
            Does::Get(0, &[Part::N(5)]),
            Does::Get(0, &[Part::N(5)]),
            Does::Add(1, &[], 3),
            Does::Delete(0, &[Part::N(5)]),
        ],
        Ending::End,
    ),
    (
        TIMES,
        1,
        LEFT_ALONE,
        &[Says::Value(Part::N(0))],
        &[Does::Get(0, &[Part::N(6)])],
        Ending::End,
    ),
    // `@x++` is a get and then a set, of whatever was read.
    (
        STEPS,
        0,
        AT_ONE,
        &[Says::Value(Part::N(0))],
        &[Does::Get(0, &[]), Does::Set(0, &[], Part::N(1))],
        Ending::End,
    ),
    (
        STEPS,
        0,
        AT_ONE,
        &[Says::Value(Part::N(1))],
        &[Does::Get(0, &[]), Does::Set(0, &[], Part::N(2))],
        Ending::End,
    ),
    // An aggregation adds to the table of its own actor.
    (
        COUNT_AND_PRINT,
        0,
        AT_ONE,
        &[],
        &[Does::Add(0, &[], 1)],
        Ending::End,
    ),
    // The tables of both CPUs and of the main actor are read and merged.
    (
        COUNT_AND_PRINT,
        1,
        TICK,
        &[
            Says::Counts(&[(&[], 1)]),
            Says::Counts(&[(&[], 2)]),
            Says::Counts(&[]),
        ],
        &[
            Does::ReadTables(0),
            Does::Print(0, &[(&[], Under::Count(3))], 0, 1),
        ],
        Ending::End,
    ),
    (
        COUNT_AND_CLEAR,
        1,
        TICK,
        &[
            Says::Counts(&[(&[], 1)]),
            Says::Counts(&[(&[], 1)]),
            Says::Counts(&[]),
        ],
        &[
            Does::ReadTables(0),
            Does::Print(0, &[(&[], Under::Count(2))], 0, 1),
            Does::ClearTables(0),
        ],
        Ending::End,
    ),
    (
        b"BEGIN { $i = 0; while (1) { $i++; } }",
        0,
        MAIN,
        &[],
        &[Does::Cut(1)],
        Ending::Cut,
    ),
    // A predicate that is 0 ends the walk.
    (HALVES, 0, AT_ONE, &[], &[], Ending::End),
    (HALVES, 0, AT_TWO, &[], &[Does::Add(0, &[], 2)], Ending::End),
    (HALVES, 0, AT_MINUS_FOUR, &[], &[], Ending::End),
    // The second event stops the run.
    (
        STOPS,
        0,
        AT_ONE,
        &[Says::Value(Part::N(0)), Says::Value(Part::N(1))],
        &[
            Does::Add(0, &[], 1),
            Does::Get(1, &[]),
            Does::Set(1, &[], Part::N(1)),
            Does::Get(1, &[]),
        ],
        Ending::End,
    ),
    (
        STOPS,
        0,
        AT_ONE,
        &[Says::Value(Part::N(1)), Says::Value(Part::N(2))],
        &[
            Does::Add(0, &[], 1),
            Does::Get(1, &[]),
            Does::Set(1, &[], Part::N(2)),
            Does::Get(1, &[]),
            Does::Stop,
        ],
        Ending::Exit,
    ),
    (STOPS, 1, MAIN, &[], &[Does::Printf(0, &[])], Ending::End),
    // Keys of two parts.
    (BLOCKS, 0, MAIN, &[], &[Does::Printf(0, &[])], Ending::End),
    (
        BLOCKS,
        1,
        ISSUED,
        &[],
        &[Does::Set(0, BLOCK, Part::N(1_000_000))],
        Ending::End,
    ),
    (
        BLOCKS,
        2,
        COMPLETED,
        &[
            Says::Value(Part::N(1_000_000)),
            Says::Value(Part::N(1_000_000)),
        ],
        &[
            Does::Get(0, BLOCK),
            Does::Get(0, BLOCK),
            Does::Add(1, &[], 37),
            Does::Delete(0, BLOCK),
        ],
        Ending::End,
    ),
    (
        BLOCKS,
        2,
        COMPLETED,
        &[Says::Value(Part::N(0))],
        &[Does::Get(0, BLOCK)],
        Ending::End,
    ),
    (BLOCKS, 3, MAIN, &[], &[Does::ClearParts(0)], Ending::End),
    // All rows are emitted; which of them are printed is the printer's.
    (
        TOP,
        0,
        MAIN,
        &[Says::Rows(&[
            (&[Part::N(1)], Part::N(1000)),
            (&[Part::N(2)], Part::N(5000)),
            (&[Part::N(3)], Part::N(2999)),
        ])],
        &[
            Does::Set(0, &[Part::N(1)], Part::N(1000)),
            Does::Set(0, &[Part::N(2)], Part::N(5000)),
            Does::Set(0, &[Part::N(3)], Part::N(2999)),
            Does::ReadParts(0),
            Does::Print(
                0,
                &[
                    (&[Part::N(1)], Under::Value(Part::N(1000))),
                    (&[Part::N(2)], Under::Value(Part::N(5000))),
                    (&[Part::N(3)], Under::Value(Part::N(2999))),
                ],
                2,
                1000,
            ),
            Does::ClearParts(0),
        ],
        Ending::End,
    ),
    (
        ZEROS,
        0,
        MAIN,
        &[],
        &[
            Does::Set(0, &[], Part::N(5)),
            Does::Set(1, &[], Part::S(b"x")),
        ],
        Ending::End,
    ),
    (
        ZEROS,
        1,
        MAIN,
        &[],
        &[Does::ZeroParts(0), Does::ZeroParts(1)],
        Ending::End,
    ),
];

#[test]
fn worked_scripts_do_what_they_say(rt: HostRuntime) -> Result<(), Fail> {
    let alloc = rt.alloc();
    for (number, row) in ROWS.iter().enumerate() {
        assert!(rt; holds(alloc, row)?, "row {number}");
    }
    Ok(())
}
