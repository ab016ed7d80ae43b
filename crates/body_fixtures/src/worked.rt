// Worked bodies, and what is replied to them.
use crate::moments::{AT_MINUS_FOUR, AT_ONE, AT_TWO, LEFT, MAIN, Moment};
use bt_core::ending::Ending;
use bt_core::items::Items;
use bt_core::key::Key;
use bt_core::map::MapKind;
use bt_core::memory::Memory;
use bt_core::step::Reply;
use bt_core::value::Value;
use map_ops::parts::part_count;
use std::alloc::Global;

/// How long it takes from the one event of a thread to the other.
pub const TIMES: &[u8] = b"tracepoint:t:enter { @start[tid] = nsecs; } \
tracepoint:t:exit /@start[tid]/ { @ns = hist(nsecs - @start[tid]); delete(@start[tid]); }";

/// A sum of the numbers whose half is positive.
pub const HALVES: &[u8] = b"tracepoint:t:e /args.v / 2 > 0/ { @ = sum(args.v); }";

/// A script that stops at its second event.
pub const STOPS: &[u8] =
    b"tracepoint:t:e { @n = count(); @i++; if (@i == 2) { exit(); } } END { printf(\"bye\\n\"); }";

/// A map that is printed as a whole and cleared.
pub const TOP: &[u8] =
    b"BEGIN { @m[1] = 1000; @m[2] = 5000; @m[3] = 2999; print(@m, 2, 1000); clear(@m); }";

/// A loop in a loop, each with a way out.
const LOOPS: &[u8] = b"BEGIN { $i = 0; while ($i < 3) { $i++; if ($i == 2) { continue; } \
unroll (2) { if ($i == 3) { break; } @x = $i; } } }";

/// Numbers that wait in a register, as a test's outcome, as a truth and as literals, one over another and at the ends of blocks.
const WAITS: &[u8] =
    b"BEGIN { $a = 7; $b = -3; $c = $a * 2 - $b % 2; $d = !($a == 7) + ($b < 0) * 4; \
@x[1, $a > 2, $b] = $c; $a += 5000000000; @y[$a++, --$b] = $d | ($c && $d) | (!$a || $b != 3); \
printf(\"%d %d %d %d\\n\", 1, $a == 5, ~$b, 2 - $c); if ($a >> 1 >= 2) { @z = -5; } \
@x[0, 2 > $b ? $a : 3, comm == \"p\"] = ($a << 1) / 3; }";

/// The same of an event's number and a builtin.
const SEEN: &[u8] = b"tracepoint:t:e { @s = sum(args.v); @h[tid, args.v] = hist(args.v - tid); \
@a[args.v == 2] = avg(3); @m = max(args.v * args.v); @n[tid] = min(!args.v); }";

/// Five numbers and their sum.
pub const FIVE: &[u8] =
    b"BEGIN { $a = 1; $b = 2; $c = 3; $d = 4; $e = 5; @x = $a + $b + $c + $d + $e; }";

/// A number that counts a thousand turns.
pub const COUNTS: &[u8] = b"BEGIN { $i = 0; while ($i < 1000) { $i = $i + 1; } @x = $i; }";

/// The number of parts of a shared map, each of which is read, and cleared.
const EACH_PART: usize = 8;

/// A body of a script by its number, the moment, what is read from maps, how many steps its walk makes, and how it ends.
pub type Row = (&'static [u8], usize, Moment, &'static [i64], usize, Ending);

/// Bodies that each layer runs.
pub const WORKED: [Row; 18] = [
    // A start is set; it is read twice, added and deleted; a thread without one only reads.
    (TIMES, 0, LEFT, &[], 1, Ending::End),
    (TIMES, 1, LEFT, &[100, 100], 4, Ending::End),
    (TIMES, 1, LEFT, &[0], 1, Ending::End),
    // A loop without an end is cut.
    (
        b"BEGIN { $i = 0; while (1) { $i++; } }",
        0,
        MAIN,
        &[],
        1,
        Ending::Cut,
    ),
    // A predicate that is 0 ends the run.
    (HALVES, 0, AT_ONE, &[], 0, Ending::End),
    (HALVES, 0, AT_TWO, &[], 1, Ending::End),
    (HALVES, 0, AT_MINUS_FOUR, &[], 0, Ending::End),
    // The second event stops.
    (STOPS, 0, AT_ONE, &[0, 1], 4, Ending::End),
    (STOPS, 0, AT_ONE, &[1, 2], 5, Ending::Exit),
    (STOPS, 1, MAIN, &[], 1, Ending::End),
    // Three sets, a read of each part, one item, and each part is cleared.
    (TOP, 0, MAIN, &[], 4 + 2 * EACH_PART, Ending::End),
    // Two turns at 1, none at 2, and at 3 the inner loop is left before its first step.
    (LOOPS, 0, MAIN, &[], 2, Ending::End),
    // Five numbers, of which the first four are in registers; and one that counts.
    (FIVE, 0, MAIN, &[], 1, Ending::End),
    (COUNTS, 0, MAIN, &[], 1, Ending::End),
    // What is printed, of numbers and a string.
    (
        b"BEGIN { printf(\"%d %s\\n\", -7 / 2, comm == \"p\" ? \"yes\" : \"no\"); }",
        0,
        MAIN,
        &[],
        1,
        Ending::End,
    ),
    (WAITS, 0, MAIN, &[], 5, Ending::End),
    (SEEN, 0, AT_TWO, &[], 5, Ending::End),
    (SEEN, 0, AT_MINUS_FOUR, &[], 5, Ending::End),
];

/// The rows of the map that is read as a whole.
const PAIRS: [(i64, i64); 3] = [(1, 1000), (2, 5000), (3, 2999)];

/// Adds the replies of the parts of a map whose rows the first part tells; the others have none.
///
/// # Errors
///
/// [`Memory`] is the one error.
pub fn push_rows(
    alloc: Global,
    replies: &mut Items<Reply>,
    rows: Items<(Key, Value)>,
) -> Result<(), Memory> {
    replies.push(Reply::Pairs(rows))?;
    for _part in 1..part_count(MapKind::Ints) {
        replies.push(Reply::Pairs(Items::new(alloc)))?;
    }
    Ok(())
}

/// The numbers that are read, and then the rows of a map.
///
/// # Errors
///
/// [`Memory`] is the one error.
pub fn replies_of(alloc: Global, numbers: &[i64]) -> Result<Items<Reply>, Memory> {
    let mut replies = Items::new(alloc);
    for number in numbers {
        replies.push(Reply::Value(Value::Int(*number)))?;
    }
    let mut rows = Items::new(alloc);
    for (key, value) in PAIRS {
        let parts = Vec::from_array(alloc, [Value::Int(key)])?;
        rows.push((Key::of(parts), Value::Int(value)))?;
    }
    push_rows(alloc, &mut replies, rows)?;
    Ok(replies)
}
