// What bodies need of frame and code, by the sums over their trees.
use body_fixtures::lowered::probe_of;
use std::alloc::Global;
use std::test::Fail;

/// The text of a script with one body, and the bytes of frame and the slots of code that the body needs.
const NEEDS: [(&[u8], u64, u64); 5] = [
    // 24 of the body, and the command's name in the key: 64. 32 of the body, 24 of the aggregation, 24 of the name.
    (
        b"tracepoint:raw_syscalls:sys_enter { @[comm] = count(); }",
        88,
        80,
    ),
    // The step of a map needs 16 bytes and 32 slots.
    (b"tracepoint:t:e { @x++; }", 40, 64),
    // 32 of the body, 24 of the aggregation, 24 of the assignment and 16 of the read; the number that is read: 8 bytes.
    (b"tracepoint:t:e { @c = count(); @x = @c; }", 32, 96),
    // `args.v / 2 > 0`: 8 bytes on the left, and 8 more on the right; 8 + 12 + 4 + 12 + 4 slots and 8 of the predicate; the
    // sum adds 24 and 8.
    (
        b"tracepoint:t:e /args.v / 2 > 0/ { @ = sum(args.v); }",
        40,
        112,
    ),
    // Eight strings of 64 bytes, and one more while it is assigned; 24 and 32 slots for each.
    (
        b"BEGIN { $a = \"x\"; $b = \"x\"; $c = \"x\"; $d = \"x\"; $e = \"x\"; $f = \"x\"; $g = \"x\"; $h = \"x\"; }",
        600,
        480,
    ),
];

fn needs_of(alloc: Global, text: &[u8]) -> Result<(u64, u64), Fail> {
    let probe = probe_of(alloc, text)?;
    Ok((probe.frame_need, probe.code_need))
}

#[test]
fn bodies_need_the_sums_over_their_trees(rt: HostRuntime) -> Result<(), Fail> {
    let alloc = rt.alloc();
    for (number, row) in NEEDS.iter().enumerate() {
        assert!(rt; needs_of(alloc, row.0)? == (row.1, row.2), "row {number}");
    }
    Ok(())
}
