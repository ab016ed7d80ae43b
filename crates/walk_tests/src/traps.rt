// What a walk can get wrong, each by a script that tells.
use body_fixtures::moments::Moment;
use body_fixtures::tables::{Does, Part, Row, Says, Under, holds};
use bt_core::ending::Ending;
use std::test::Fail;

/// The main actor beside two CPUs.
const MAIN: Moment = Moment {
    time: 0,
    tid: 0,
    payload: b"",
    actor: 2,
    actors: 3,
};

/// The second of two CPUs at a tick at 2^63.
const LATE: Moment = Moment {
    time: 9_223_372_036_854_775_808,
    tid: 0,
    payload: b"",
    actor: 1,
    actors: 3,
};

const RULES: [Row; 28] = [
    // A key's parts from left to right, then the right side, then the set.
    (
        b"BEGIN { @m[@a, @b] = @c; @a = 0; @b = 0; @c = 0; }",
        0,
        MAIN,
        &[
            Says::Value(Part::N(11)),
            Says::Value(Part::N(12)),
            Says::Value(Part::N(13)),
        ],
        &[
            Does::Get(1, &[]),
            Does::Get(2, &[]),
            Does::Get(3, &[]),
            Does::Set(0, &[Part::N(11), Part::N(12)], Part::N(13)),
            Does::Set(1, &[], Part::N(0)),
            Does::Set(2, &[], Part::N(0)),
            Does::Set(3, &[], Part::N(0)),
        ],
        Ending::End,
    ),
    // Of `op=` the key, then the right side, then the old value.
    (
        b"BEGIN { @m[@a] -= @b; @a = 0; @b = 0; }",
        0,
        MAIN,
        &[
            Says::Value(Part::N(1)),
            Says::Value(Part::N(2)),
            Says::Value(Part::N(10)),
        ],
        &[
            Does::Get(1, &[]),
            Does::Get(2, &[]),
            Does::Get(0, &[Part::N(1)]),
            Does::Set(0, &[Part::N(1)], Part::N(8)),
            Does::Set(1, &[], Part::N(0)),
            Does::Set(2, &[], Part::N(0)),
        ],
        Ending::End,
    ),
    // A variable is read once the right side has changed it.
    (
        b"BEGIN { $x = 1; $x += $x++; printf(\"%d\", $x); }",
        0,
        MAIN,
        &[],
        &[Does::Printf(0, &[Part::N(3)])],
        Ending::End,
    ),
    // An aggregation takes its key, and then its number.
    (
        b"BEGIN { @s[@a] = sum(@b); @a = 0; @b = 0; }",
        0,
        MAIN,
        &[Says::Value(Part::N(1)), Says::Value(Part::N(2))],
        &[
            Does::Get(1, &[]),
            Does::Get(2, &[]),
            Does::Add(0, &[Part::N(1)], 2),
            Does::Set(1, &[], Part::N(0)),
            Does::Set(2, &[], Part::N(0)),
        ],
        Ending::End,
    ),
    // Operands from left to right, the old value of the one and the new value of the other.
    (
        b"BEGIN { @x = @y++ - ++@z[@k]; @k = 0; }",
        0,
        MAIN,
        &[
            Says::Value(Part::N(5)),
            Says::Value(Part::N(7)),
            Says::Value(Part::N(8)),
        ],
        &[
            Does::Get(1, &[]),
            Does::Set(1, &[], Part::N(6)),
            Does::Get(3, &[]),
            Does::Get(2, &[Part::N(7)]),
            Does::Set(2, &[Part::N(7)], Part::N(9)),
            Does::Set(0, &[], Part::N(-4)),
            Does::Set(3, &[], Part::N(0)),
        ],
        Ending::End,
    ),
    // Arguments from left to right; `--` gives the old value behind the map and the new one before it.
    (
        b"BEGIN { @s = \"a\"; printf(\"%d %d %s\", @x--, --@x, @s); }",
        0,
        MAIN,
        &[
            Says::Value(Part::N(5)),
            Says::Value(Part::N(4)),
            Says::Value(Part::S(b"w")),
        ],
        &[
            Does::Set(0, &[], Part::S(b"a")),
            Does::Get(1, &[]),
            Does::Set(1, &[], Part::N(4)),
            Does::Get(1, &[]),
            Does::Set(1, &[], Part::N(3)),
            Does::Get(0, &[]),
            Does::Printf(0, &[Part::N(5), Part::N(3), Part::S(b"w")]),
        ],
        Ending::End,
    ),
    // A delete takes its key first.
    (
        b"BEGIN { delete(@m[@k]); @m[1] = 1; @k = 0; }",
        0,
        MAIN,
        &[Says::Value(Part::N(4))],
        &[
            Does::Get(1, &[]),
            Does::Delete(0, &[Part::N(4)]),
            Does::Set(0, &[Part::N(1)], Part::N(1)),
            Does::Set(1, &[], Part::N(0)),
        ],
        Ending::End,
    ),
    // Of the predicate, then of the block.
    (
        b"BEGIN { @p = \"a\"; } END /@p == \"a\"/ { @p = \"b\"; }",
        1,
        MAIN,
        &[Says::Value(Part::S(b"a"))],
        &[Does::Get(0, &[]), Does::Set(0, &[], Part::S(b"b"))],
        Ending::End,
    ),
    // A variable that no statement has set yet is 0, or empty.
    (
        b"BEGIN { if (0) { $n = 1; $s = \"x\"; } printf(\"%d%s\", $n, $s); }",
        0,
        MAIN,
        &[],
        &[Does::Printf(0, &[Part::N(0), Part::S(b"")])],
        Ending::End,
    ),
    // Times are signed, and the CPU is the walk's.
    (
        b"interval:s:1 { @[nsecs, elapsed, cpu] = count(); }",
        0,
        LATE,
        &[],
        &[Does::Add(
            0,
            &[
                Part::N(-9_223_372_036_854_775_808),
                Part::N(-9_223_372_036_854_775_808),
                Part::N(1),
            ],
            1,
        )],
        Ending::End,
    ),
    // The right side of `&&` only where the left one holds, and 1 for whatever holds.
    (
        b"BEGIN { $x = @a && @b; printf(\"%d\", $x); @a = 0; @b = 0; return; }",
        0,
        MAIN,
        &[Says::Value(Part::N(0))],
        &[
            Does::Get(0, &[]),
            Does::Printf(0, &[Part::N(0)]),
            Does::Set(0, &[], Part::N(0)),
            Does::Set(1, &[], Part::N(0)),
        ],
        Ending::Return,
    ),
    (
        b"BEGIN { $x = @a && @b; printf(\"%d\", $x); @a = 0; @b = 0; return; }",
        0,
        MAIN,
        &[Says::Value(Part::N(2)), Says::Value(Part::N(5))],
        &[
            Does::Get(0, &[]),
            Does::Get(1, &[]),
            Does::Printf(0, &[Part::N(1)]),
            Does::Set(0, &[], Part::N(0)),
            Does::Set(1, &[], Part::N(0)),
        ],
        Ending::Return,
    ),
    // The right side of `||` only where the left one does not hold.
    (
        b"BEGIN { $x = @a || @b; printf(\"%d\", $x); @a = 0; @b = 0; return; }",
        0,
        MAIN,
        &[Says::Value(Part::N(-3))],
        &[
            Does::Get(0, &[]),
            Does::Printf(0, &[Part::N(1)]),
            Does::Set(0, &[], Part::N(0)),
            Does::Set(1, &[], Part::N(0)),
        ],
        Ending::Return,
    ),
    (
        b"BEGIN { $x = @a || @b; printf(\"%d\", $x); @a = 0; @b = 0; return; }",
        0,
        MAIN,
        &[Says::Value(Part::N(0)), Says::Value(Part::N(0))],
        &[
            Does::Get(0, &[]),
            Does::Get(1, &[]),
            Does::Printf(0, &[Part::N(0)]),
            Does::Set(0, &[], Part::N(0)),
            Does::Set(1, &[], Part::N(0)),
        ],
        Ending::Return,
    ),
    // One side of `? :`.
    (
        b"BEGIN { $x = @a ? @b : @c; printf(\"%d\", $x); if ($x) { return; } @a = 0; @b = 0; @c = 0; }",
        0,
        MAIN,
        &[Says::Value(Part::N(1)), Says::Value(Part::N(8))],
        &[
            Does::Get(0, &[]),
            Does::Get(1, &[]),
            Does::Printf(0, &[Part::N(8)]),
        ],
        Ending::Return,
    ),
    (
        b"BEGIN { $x = @a ? @b : @c; printf(\"%d\", $x); if ($x) { return; } @a = 0; @b = 0; @c = 0; }",
        0,
        MAIN,
        &[Says::Value(Part::N(0)), Says::Value(Part::N(9))],
        &[
            Does::Get(0, &[]),
            Does::Get(2, &[]),
            Does::Printf(0, &[Part::N(9)]),
        ],
        Ending::Return,
    ),
    // The arms of `if` up to the first one that holds.
    (
        b"BEGIN { if (@a) { exit(); } else if (@b) { return; } else if (@c) { exit(); } @a = 0; @b = 0; @c = 0; }",
        0,
        MAIN,
        &[Says::Value(Part::N(0)), Says::Value(Part::N(1))],
        &[Does::Get(0, &[]), Does::Get(1, &[])],
        Ending::Return,
    ),
    // Nothing of a body comes behind its `exit()`.
    (
        b"BEGIN { while (1) { unroll (3) { exit(); @a = 1; } } printf(\"a\"); }",
        0,
        MAIN,
        &[],
        &[Does::Stop],
        Ending::Exit,
    ),
    // The turns of all loops of a run are counted together: 4,000 and 20 and 76 are as many as there are.
    (
        b"BEGIN { $i = 0; while ($i < 4000) { $i++; } unroll (20) { $i++; }\n while ($i < 4096) { $i++; } printf(\"%d\", $i); }",
        0,
        MAIN,
        &[],
        &[Does::Printf(0, &[Part::N(4096)])],
        Ending::End,
    ),
    // One more is cut at the line of its own loop.
    (
        b"BEGIN { $i = 0; while ($i < 4000) { $i++; } unroll (20) { $i++; }\n while ($i < 4097) { $i++; } printf(\"%d\", $i); }",
        0,
        MAIN,
        &[],
        &[Does::Cut(2)],
        Ending::Cut,
    ),
    // A loop inside a loop uses the turns up, and the cut is at its line.
    (
        b"BEGIN { $i = 0; while (1) { $i++;\n unroll (63) { $i++; } } }",
        0,
        MAIN,
        &[],
        &[Does::Cut(1)],
        Ending::Cut,
    ),
    // `break` leaves the inner loop alone, and `continue` goes to its test.
    (
        b"BEGIN { $i = 0; while ($i < 3) { $i++; while (1) { break; } if ($i == 2) { continue; } printf(\"%d\", $i); } }",
        0,
        MAIN,
        &[],
        &[
            Does::Printf(0, &[Part::N(1)]),
            Does::Printf(0, &[Part::N(3)]),
        ],
        Ending::End,
    ),
    // The test of a loop is done once more than its turns.
    (
        b"BEGIN { while (@a) { @a = 0; } }",
        0,
        MAIN,
        &[Says::Value(Part::N(1)), Says::Value(Part::N(0))],
        &[
            Does::Get(0, &[]),
            Does::Set(0, &[], Part::N(0)),
            Does::Get(0, &[]),
        ],
        Ending::End,
    ),
    // A map without rows is emitted too.
    (
        b"BEGIN { print(@a); print(@c); @a = 1; @c = count(); }",
        0,
        MAIN,
        &[
            Says::Rows(&[]),
            Says::Counts(&[]),
            Says::Counts(&[]),
            Says::Counts(&[]),
        ],
        &[
            Does::ReadParts(0),
            Does::Print(0, &[], 0, 1),
            Does::ReadTables(1),
            Does::Print(1, &[], 0, 1),
            Does::Set(0, &[], Part::N(1)),
            Does::Add(1, &[], 1),
        ],
        Ending::End,
    ),
    // Rows of one key are merged, and the keys come in their order.
    (
        b"BEGIN { @c[1] = count(); print(@c, 5); }",
        0,
        MAIN,
        &[
            Says::Counts(&[(&[Part::N(-1)], 1), (&[Part::N(7)], 2)]),
            Says::Counts(&[(&[Part::N(-2)], 3)]),
            Says::Counts(&[(&[Part::N(7)], 4)]),
        ],
        &[
            Does::Add(0, &[Part::N(1)], 1),
            Does::ReadTables(0),
            Does::Print(
                0,
                &[
                    (&[Part::N(-2)], Under::Count(3)),
                    (&[Part::N(-1)], Under::Count(1)),
                    (&[Part::N(7)], Under::Count(6)),
                ],
                5,
                1,
            ),
        ],
        Ending::End,
    ),
    // An aggregation is read after its key, from the tables of all actors; where none has the key it is 0.
    (
        b"BEGIN { @c[1] = count(); @x = @c[@a] + @c[2]; }",
        0,
        MAIN,
        &[
            Says::Value(Part::N(1)),
            Says::Counts(&[(&[Part::N(1)], 2), (&[Part::N(3)], 9)]),
            Says::Counts(&[(&[Part::N(1)], 5)]),
            Says::Counts(&[]),
            Says::Counts(&[(&[Part::N(1)], 8)]),
            Says::Counts(&[]),
            Says::Counts(&[(&[Part::N(3)], 4)]),
        ],
        &[
            Does::Add(0, &[Part::N(1)], 1),
            Does::Get(2, &[]),
            Does::ReadTables(0),
            Does::ReadTables(0),
            Does::Set(1, &[], Part::N(7)),
        ],
        Ending::End,
    ),
    // All tables are cleared and set to nothing, the main actor's too.
    (
        b"BEGIN { @c = count(); clear(@c); zero(@c); }",
        0,
        MAIN,
        &[],
        &[
            Does::Add(0, &[], 1),
            Does::ClearTables(0),
            Does::ZeroTables(0),
        ],
        Ending::End,
    ),
    // A map of strings.
    (
        b"BEGIN { @s[1] = \"a\"; print(@s); clear(@s); zero(@s); }",
        0,
        MAIN,
        &[Says::Rows(&[(&[Part::N(2)], Part::S(b"b"))])],
        &[
            Does::Set(0, &[Part::N(1)], Part::S(b"a")),
            Does::ReadParts(0),
            Does::Print(0, &[(&[Part::N(2)], Under::Value(Part::S(b"b")))], 0, 1),
            Does::ClearParts(0),
            Does::ZeroParts(0),
        ],
        Ending::End,
    ),
];

#[test]
fn walks_keep_the_rules_of_evaluation(rt: HostRuntime) -> Result<(), Fail> {
    let alloc = rt.alloc();
    for (number, row) in RULES.iter().enumerate() {
        assert!(rt; holds(alloc, row)?, "row {number}");
    }
    Ok(())
}
