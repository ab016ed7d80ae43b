// Scripts that break a rule of types, each with its place, and scripts that break none.
use body_fixtures::scripts::type_fault;
use bt_core::place::Place;
use expr_types::fault::{Fault, Rule, TypeError};
use std::test::Fail;

/// The format of an event with a field of each kind: two whole numbers, two strings, and one that no script reads.
const EVENT: &[u8] = b"name: e\nID: 7\nformat:\n\
field:u64 v;offset:8;size:8;signed:0;\n\
field:const void * p;offset:16;size:8;signed:0;\n\
field:char c[8];offset:24;size:8;signed:0;\n\
field:__data_loc char[] d;offset:32;size:4;signed:0;\n\
field:int o[3];offset:36;size:12;signed:1;\n";

/// The format of an event with one field.
const OTHER: &[u8] = b"name: f\nID: 8\nformat:\nfield:u64 v;offset:8;size:8;signed:0;\n";

/// The formats of `t:e` and `u:f`.
const FORMATS: [(&[u8], &[u8]); 2] = [(b"t", EVENT), (b"u", OTHER)];

/// Scripts over the formats `t:e` and `u:f`, with the rule that each breaks first, and the line and column of its place.
const REFUSED: [(&[u8], Rule, u32, u32); 50] = [
    (b"t:t:e { @x = args.nope; }", Rule::UnknownField, 1, 19),
    (b"t:t:e, t:u:f { @x = args.c; }", Rule::UnknownField, 1, 26),
    (b"t:t:e { @x = args.o; }", Rule::FieldNotReadable, 1, 19),
    (b"BEGIN { @x = 1; @x = \"a\"; }", Rule::OtherKind, 1, 17),
    (b"BEGIN { @x = count(); @x++; }", Rule::OtherKind, 1, 23),
    (b"BEGIN { @x = count(); @x = 1; }", Rule::OtherKind, 1, 23),
    (
        b"BEGIN { @x = count(); @x = sum(1); }",
        Rule::OtherKind,
        1,
        23,
    ),
    (
        b"BEGIN { @x = lhist(1, 0, 9, 3); @x = lhist(1, 0, 9, 2); }",
        Rule::OtherKind,
        1,
        33,
    ),
    (
        b"BEGIN { @s = \"a\"; @s += \"b\"; }",
        Rule::OtherKind,
        1,
        19,
    ),
    (b"BEGIN { @x = @y; @y = count(); }", Rule::OtherKind, 1, 18),
    (
        b"BEGIN { @x[1] = 1; @x[\"a\"] = 1; }",
        Rule::OtherKeys,
        1,
        20,
    ),
    (b"BEGIN { @x = 1; @y = @x[1]; }", Rule::OtherKeys, 1, 22),
    (b"BEGIN { @x[1, 2, 3, 4, 5] = 1; }", Rule::OtherKeys, 1, 9),
    (b"BEGIN { @x[1] = 1; delete(@x); }", Rule::OtherKeys, 1, 27),
    (b"BEGIN { @x = $y; }", Rule::NotSet, 1, 14),
    (b"BEGIN { $y = 1; } END { @x = $y; }", Rule::NotSet, 1, 30),
    (b"BEGIN { $y += \"b\"; }", Rule::NotSet, 1, 9),
    (b"BEGIN { $y++; }", Rule::NotSet, 1, 9),
    (b"BEGIN { $y = $y; }", Rule::NotSet, 1, 14),
    (b"BEGIN { printf(\"%q\", $y); }", Rule::NotSet, 1, 22),
    (b"BEGIN { unroll (0) { @x = $y; } }", Rule::NotSet, 1, 27),
    (b"BEGIN { if (\"a\") { break; } }", Rule::WrongType, 1, 13),
    (b"BEGIN / \"a\" / { }", Rule::WrongType, 1, 9),
    (b"BEGIN { $y = 1; $y = \"a\"; }", Rule::WrongType, 1, 17),
    (b"BEGIN { @i = 1; @i += \"b\"; }", Rule::WrongType, 1, 17),
    (b"BEGIN { $i = 1; $i += \"b\"; }", Rule::WrongType, 1, 17),
    (b"BEGIN { @x = sum(\"a\"); }", Rule::WrongType, 1, 14),
    (
        b"BEGIN { @x = lhist(\"a\", 0, 0, 1); }",
        Rule::WrongType,
        1,
        14,
    ),
    (b"BEGIN { @x = 1 == \"a\"; }", Rule::WrongType, 1, 14),
    (b"BEGIN { unroll (0) { } }", Rule::WrongType, 1, 9),
    (b"BEGIN { unroll (101) { } }", Rule::WrongType, 1, 9),
    (
        b"BEGIN { @x = 1; print(@x, 0, 0); }",
        Rule::WrongType,
        1,
        17,
    ),
    (
        b"BEGIN { @x = count(); delete(@x[1]); }",
        Rule::WrongType,
        1,
        23,
    ),
    (
        b"BEGIN { @x = \"aaaaaaaaaaaaaaaaaaaaaaaaaaaaaaaaaaaaaaaaaaaaaaaaaaaaaaaaaaaaaaaa\"; }",
        Rule::WrongType,
        1,
        14,
    ),
    (
        b"BEGIN { printf(\"%d\\n\", \"a\"); }",
        Rule::BadFormat,
        1,
        16,
    ),
    (b"BEGIN { printf(\"%q\"); }", Rule::BadFormat, 1, 16),
    (b"BEGIN { printf(\"%d\"); }", Rule::BadFormat, 1, 16),
    (b"BEGIN { @x = lhist(1, 0, 0, 1); }", Rule::BadBounds, 1, 14),
    (b"BEGIN { @x = lhist(1, 0, 9, 0); }", Rule::BadBounds, 1, 14),
    (
        b"BEGIN { @x = lhist(1, 0, 1001, 1); }",
        Rule::BadBounds,
        1,
        14,
    ),
    (
        b"BEGIN { @x = hist(1); @y = @x; }",
        Rule::AggregationRead,
        1,
        28,
    ),
    (
        b"BEGIN { @x[1] = lhist(1, 0, 9, 1); @y[@x[1]] = 1; }",
        Rule::AggregationRead,
        1,
        39,
    ),
    (
        b"BEGIN { @x[1] = hist(1); @y = @x; }",
        Rule::AggregationRead,
        1,
        31,
    ),
    (
        b"BEGIN { @x[1] = count(); @y = @x; }",
        Rule::OtherKeys,
        1,
        31,
    ),
    (
        b"BEGIN { @x = count(); @y = @x == \"a\"; }",
        Rule::WrongType,
        1,
        28,
    ),
    (b"BEGIN { @x = args.v; }", Rule::NoEvent, 1, 14),
    (b"t:t:e, END { @x = args.v; }", Rule::NoEvent, 1, 19),
    (b"BEGIN { break; }", Rule::NoLoop, 1, 9),
    (
        b"BEGIN {\n  while (1) { break; }\n  continue;\n}",
        Rule::NoLoop,
        3,
        3,
    ),
    // The 33rd map.
    (
        b"BEGIN { @a = 0; @b = 0; @c = 0; @d = 0; @e = 0; @f = 0; @g = 0; @h = 0; \
@i = 0; @j = 0; @k = 0; @l = 0; @m = 0; @n = 0; @o = 0; @p = 0; \
@q = 0; @r = 0; @s = 0; @t = 0; @u = 0; @v = 0; @w = 0; @x = 0; \
@y = 0; @z = 0; @A = 0; @B = 0; @C = 0; @D = 0; @E = 0; @F = 0; \
@G = 0; }",
        Rule::TooManyMaps,
        1,
        265,
    ),
];

#[test]
fn the_first_rule_that_is_broken_is_told(rt: HostRuntime) -> Result<(), Fail> {
    let alloc = rt.alloc();
    for (number, row) in REFUSED.iter().enumerate() {
        let (text, rule, line, column) = *row;
        let place = Place { line, column };
        let fault = TypeError::Broken(Fault { rule, place });
        assert!(rt;
            type_fault(alloc, text, &FORMATS[..])? == Some(fault),
            "row {number}"
        );
    }
    Ok(())
}

/// Scripts over the same that break none: the nearest to those above.
const ACCEPTED: [&[u8]; 26] = [
    b"t:t:e { @x = args.v; }",
    b"t:t:e { @x = args.p; @y = args.c; @z = args.d; }",
    b"BEGIN { @x = 1; @x = 2; }",
    b"BEGIN { @x = count(); @x = count(); }",
    b"BEGIN { @x = lhist(1, 0, 9, 3); @x = lhist(1, 0, 9, 3); }",
    b"BEGIN { @x = @y; @y = 1; }",
    b"BEGIN { @x[1] = 1; @x[2] = 1; delete(@x[1]); delete(@x, 2); }",
    b"BEGIN { @x[1, 2, 3, 4] = 1; }",
    b"BEGIN { $y = 1; @x = $y; $y += 2; $y++; }",
    b"BEGIN { if (1) { @x = 1; } else { @x = 2; } }",
    b"BEGIN / \"a\" == \"b\" / { }",
    b"BEGIN { @x = sum(1); @y = hist(2); @z = avg(3); }",
    b"BEGIN { unroll (1) { } unroll (100) { break; } }",
    b"BEGIN { @x = 1; print(@x, 0, 1); print(@x); clear(@x); zero(@x); }",
    b"BEGIN { @x = \"aaaaaaaaaaaaaaaaaaaaaaaaaaaaaaaaaaaaaaaaaaaaaaaaaaaaaaaaaaaaaaa\"; }",
    b"BEGIN { printf(\"%d %s\\n\", 1, \"a\"); printf(\"%%\"); }",
    b"BEGIN { @x = lhist(1, 0, 1000, 1); }",
    b"BEGIN { @x = count(); print(@x); }",
    b"BEGIN { @x = count(); @y = @x; if (@x > 1) { @y = 2; } }",
    b"BEGIN { @x[1, \"a\"] = sum(2); @y = avg(2); @z[@x[1, \"a\"]] = min(@y); $v = @z[3]; }",
    b"BEGIN { @x = max(1); printf(\"%d\", @x); @x = max(@x + 1); }",
    b"t:t:e, t:t:e { @x = args.v; }",
    b"BEGIN { while (1) { break; continue; } exit(); return; }",
    b"tracepoint:t:* { @ = sum(args.v); }",
    b"tracepoint:t:e { @[args.p] = count(); }",
    // 32 maps.
    b"BEGIN { @a = 0; @b = 0; @c = 0; @d = 0; @e = 0; @f = 0; @g = 0; @h = 0; \
@i = 0; @j = 0; @k = 0; @l = 0; @m = 0; @n = 0; @o = 0; @p = 0; \
@q = 0; @r = 0; @s = 0; @t = 0; @u = 0; @v = 0; @w = 0; @x = 0; \
@y = 0; @z = 0; @A = 0; @B = 0; @C = 0; @D = 0; @E = 0; @F = 0; }",
];

#[test]
fn the_nearest_scripts_have_types(rt: HostRuntime) -> Result<(), Fail> {
    let alloc = rt.alloc();
    for (number, text) in ACCEPTED.iter().enumerate() {
        assert!(rt;
            type_fault(alloc, *text, &FORMATS[..])?.is_none(),
            "row {number}"
        );
    }
    Ok(())
}
