// The order of ticks.
use crate::scripts::{SECOND, attached_to_three};
use bt_ast::attached::Tick;
use std::alloc::Global;
use std::test::Fail;

/// Scripts over two seconds, and the ticks of each: after how many half seconds, and the body.
const TICKS: [(&[u8], [(u8, u32); 6]); 3] = [
    // Both points of a probe run its one body, also at one time.
    (
        b"BEGIN, interval:s:1, interval:ms:500 { }",
        [(1, 1), (2, 1), (2, 1), (3, 1), (4, 1), (4, 1)],
    ),
    // At one time the earlier probe comes first.
    (
        b"interval:s:1 { } interval:ms:500 { }",
        [(1, 1), (2, 0), (2, 1), (3, 1), (4, 0), (4, 1)],
    ),
    (
        b"interval:hz:2 { } END, t:t:e, interval:s:1 { }",
        [(1, 0), (2, 0), (2, 2), (3, 0), (4, 0), (4, 2)],
    ),
];

/// Whether the ticks come so many half seconds after 77 nanoseconds, each for its body.
fn are_ticks(ticks: &[Tick], wanted: &[(u8, u32)]) -> bool {
    for (tick, (half_seconds, body)) in ticks.iter().zip(wanted) {
        let after = u64::from(*half_seconds) * (SECOND / 2);
        if tick.time.wrapping_sub(77) != after || tick.body != *body {
            return false;
        }
    }
    ticks.len() == wanted.len()
}

fn has_ticks(alloc: Global, text: &[u8], wanted: &[(u8, u32)]) -> Result<bool, Fail> {
    let attached = attached_to_three(alloc, text, 77, 77 + 2 * SECOND)??;
    Ok(are_ticks(attached.ticks.as_slice(), wanted))
}

#[test]
fn ticks_stand_by_time_and_then_by_probe(rt: HostRuntime) -> Result<(), Fail> {
    let alloc = rt.alloc();
    for (number, row) in TICKS.iter().enumerate() {
        assert!(rt; has_ticks(alloc, row.0, &row.1[..])?, "row {number}");
    }
    Ok(())
}
