// Points that break a rule, and the nearest ones that do not.
use crate::scripts::{SECOND, attached_to_three};
use bt_attach::error::AttachError;
use bt_core::place::Place;
use std::alloc::Global;
use std::test::Fail;

/// Scripts over the formats `t:e`, `t:f` and `u:f` and a recording from 0 to an end, with their first fault.
const REFUSED: [(&[u8], u64, AttachError); 21] = [
    (
        b"tracepoint:t:nope { }",
        0,
        AttachError::UnknownTracepoint(Place { line: 1, column: 1 }),
    ),
    (
        b"BEGIN, t:t:ef { }",
        0,
        AttachError::UnknownTracepoint(Place { line: 1, column: 8 }),
    ),
    (
        b"t:T:e { }",
        0,
        AttachError::UnknownTracepoint(Place { line: 1, column: 1 }),
    ),
    (
        b"t:u:e { }",
        0,
        AttachError::UnknownTracepoint(Place { line: 1, column: 1 }),
    ),
    (
        b"t:t:x* { }",
        0,
        AttachError::NoMatch(Place { line: 1, column: 1 }),
    ),
    (
        b"t:t:e, t:x*:e { }",
        0,
        AttachError::NoMatch(Place { line: 1, column: 8 }),
    ),
    (
        b"t:t:e*e { }",
        0,
        AttachError::NoMatch(Place { line: 1, column: 1 }),
    ),
    (
        b"t:*u*:e { }",
        0,
        AttachError::NoMatch(Place { line: 1, column: 1 }),
    ),
    (
        b"END { }\ninterval:s:0 { }",
        0,
        AttachError::BadPeriod(Place { line: 2, column: 1 }),
    ),
    (
        b"interval:hz:0 { }",
        0,
        AttachError::BadPeriod(Place { line: 1, column: 1 }),
    ),
    (
        b"i:hz:1000000001 { }",
        0,
        AttachError::BadPeriod(Place { line: 1, column: 1 }),
    ),
    (
        b"interval:s:9223372037 { }",
        0,
        AttachError::BadPeriod(Place { line: 1, column: 1 }),
    ),
    (
        b"interval:ms:9223372036855 { }",
        0,
        AttachError::BadPeriod(Place { line: 1, column: 1 }),
    ),
    (
        b"interval:us:9223372036854776 { }",
        0,
        AttachError::BadPeriod(Place { line: 1, column: 1 }),
    ),
    (
        b"i:us:18446744073709551615 { }",
        0,
        AttachError::BadPeriod(Place { line: 1, column: 1 }),
    ),
    (
        b"interval:us:1 { }",
        2 * SECOND,
        AttachError::TooManyTicks(Place { line: 1, column: 1 }),
    ),
    (
        b"interval:hz:1000000000 { }",
        100_001,
        AttachError::TooManyTicks(Place { line: 1, column: 1 }),
    ),
    (
        b"i:us:20, i:s:2 { }",
        2 * SECOND,
        AttachError::TooManyTicks(Place {
            line: 1,
            column: 10,
        }),
    ),
    (
        b"i:us:20 { } i:s:2 { }",
        2 * SECOND,
        AttachError::TooManyTicks(Place {
            line: 1,
            column: 13,
        }),
    ),
    (
        b"i:us:1, t:t:nope { }",
        2 * SECOND,
        AttachError::TooManyTicks(Place { line: 1, column: 1 }),
    ),
    (
        b"t:t:nope, i:us:1 { }",
        2 * SECOND,
        AttachError::UnknownTracepoint(Place { line: 1, column: 1 }),
    ),
];

fn fault_of(alloc: Global, text: &[u8], end: u64) -> Result<Option<AttachError>, Fail> {
    Ok(attached_to_three(alloc, text, 0, end)?.err())
}

#[test]
fn the_first_point_that_breaks_a_rule_is_refused(rt: HostRuntime) -> Result<(), Fail> {
    let alloc = rt.alloc();
    for (number, row) in REFUSED.iter().enumerate() {
        let (text, end, fault) = *row;
        assert!(rt; fault_of(alloc, text, end)? == Some(fault), "row {number}");
    }
    Ok(())
}

/// Scripts over the same with how many bodies and ticks they have.
const ACCEPTED: [(&[u8], u64, usize, usize); 21] = [
    (b"tracepoint:t:e { }", 0, 1, 0),
    (b"t:t:e* { }", 0, 1, 0),
    (b"t:*t:* { } t:t:*e* { }", 0, 3, 0),
    (b"t:t*:** { }", 0, 2, 0),
    (b"t:*:f { }", 0, 2, 0),
    (b"t:*:*, t:t:e { }", 0, 3, 0),
    (b"t:t:e { } t:t:e { }", 0, 2, 0),
    (b"BEGIN, BEGIN { }", 0, 1, 0),
    (b"BEGIN { } BEGIN, END, END { }", 0, 3, 0),
    (b"interval:s:1 { }", SECOND - 1, 1, 0),
    (b"interval:s:1 { }", SECOND, 1, 1),
    (b"interval:s:1, interval:s:1 { }", SECOND, 1, 2),
    (b"interval:s:007 { }", 7 * SECOND, 1, 1),
    (b"interval:hz:3 { }", 2 * SECOND, 1, 6),
    (b"interval:hz:1000000000 { }", 100_000, 1, 100_000),
    (b"interval:s:9223372036 { }", SECOND, 1, 0),
    (b"interval:ms:9223372036854 { }", SECOND, 1, 0),
    (b"interval:us:9223372036854775 { }", SECOND, 1, 0),
    (b"interval:us:20 { }", 2 * SECOND, 1, 100_000),
    (b"i:us:20, i:s:3 { }", 2 * SECOND, 1, 100_000),
    (b"i:us:20 { } i:s:3 { }", 2 * SECOND, 2, 100_000),
];

fn counts_of(alloc: Global, text: &[u8], end: u64) -> Result<(usize, usize), Fail> {
    let attached = attached_to_three(alloc, text, 0, end)??;
    Ok((attached.bodies.len(), attached.ticks.len()))
}

#[test]
fn the_nearest_points_are_attached(rt: HostRuntime) -> Result<(), Fail> {
    let alloc = rt.alloc();
    for (number, row) in ACCEPTED.iter().enumerate() {
        let (text, end, bodies, ticks) = *row;
        assert!(rt;
            counts_of(alloc, text, end)? == (bodies, ticks),
            "row {number}"
        );
    }
    Ok(())
}
