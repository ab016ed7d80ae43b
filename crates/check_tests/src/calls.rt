// Calls of helpers that are accepted or refused.
ghost use Rattle.std.specs.Prelude.{IsTrue, IfOk};
ghost use Rattle.typed_tree.specs.Scope.{is_fine_decl, is_fine_kind};

use bpf_check::check::{CodeFault, check_code};
use bt_core::items::Items;
use bt_core::map::{AggKind, MapDecl, MapKind, Shape};
use bt_core::memory::Memory;
use fmt_text::piece::Piece;
use std::alloc::Global;
use std::test::Fail;
use typed_tree::script::Typed;

const S2: Result<u64, CodeFault> = Err(CodeFault::S2);

fn decl(alloc: Global, kind: MapKind) -> Result<MapDecl, Memory>
    requires { IsTrue (is_fine_kind kind) }
    ensures { IfOk result (λ decl. IsTrue (is_fine_decl decl)) }
{
    let mut key_shape = Items::new(alloc);
    key_shape.push(Shape::Int)?;
    Ok(MapDecl {
        name: Items::new(alloc),
        kind,
        key_shape,
    })
}

// A script with a map of numbers, one of strings, one of counts and one of histograms, each with one number
// as its key, and the format `%d`.
fn script(alloc: Global) -> Result<Typed, Memory> {
    let numbers = decl(alloc, MapKind::Ints)?;
    let strings = decl(alloc, MapKind::Strs)?;
    let counts = decl(alloc, MapKind::Aggs(AggKind::Count))?;
    let histograms = decl(alloc, MapKind::Aggs(AggKind::Hist))?;
    let mut maps = Items::new(alloc);
    maps.push(numbers)?;
    maps.push(strings)?;
    maps.push(counts)?;
    maps.push(histograms)?;
    let mut pieces = Items::new(alloc);
    pieces.push(Piece::Conversion {
        left: false,
        zero: false,
        width: 0,
        letter: b'd',
    })?;
    let mut formats = Items::new(alloc);
    formats.push(pieces)?;
    Ok(Typed {
        maps,
        formats,
        bodies: Items::new(alloc),
        uses_exit: true,
    })
}

// `mov64 r1, N`, then `mov64 r2, r10`, `add64 r2, N`, and the same for R3, as far as they are given; then
// `call N` and `exit`.
#[test]
fn calls_are_accepted_or_refused(rt: HostRuntime) -> Result<(), Fail> {
    let typed = script(rt.alloc())?;
    let rows: [(&[u8], Result<u64, CodeFault>, &str); 21] = [
        (
            b"\xb7\x01\0\0\0\0\0\0\xbf\xa2\0\0\0\0\0\0\x07\x02\0\0\xf0\xff\xff\xff\
\xbf\xa3\0\0\0\0\0\0\x07\x03\0\0\xe8\xff\xff\xff\x85\0\0\0\x01\0\0\0\x95\0\0\0\0\0\0\0",
            Ok(28679),
            "get of a number",
        ),
        (
            b"\xb7\x01\0\0\0\0\0\0\xbf\xa2\0\0\0\0\0\0\x07\x02\0\0\xf0\xff\xff\xff\
\xbf\xa3\0\0\0\0\0\0\x07\x03\0\0\xf8\xff\xff\xff\x85\0\0\0\x01\0\0\0\x95\0\0\0\0\0\0\0",
            S2,
            "get into the count of turns",
        ),
        (
            b"\xb7\x01\0\0\0\0\0\0\xbf\xa2\0\0\0\0\0\0\x07\x02\0\0\xfc\xff\xff\xff\
\xbf\xa3\0\0\0\0\0\0\x07\x03\0\0\xe8\xff\xff\xff\x85\0\0\0\x01\0\0\0\x95\0\0\0\0\0\0\0",
            S2,
            "a key that reaches over the frame's end",
        ),
        (
            b"\xb7\x01\0\0\x01\0\0\0\xbf\xa2\0\0\0\0\0\0\x07\x02\0\0\xf0\xff\xff\xff\
\xbf\xa3\0\0\0\0\0\0\x07\x03\0\0\xb8\xff\xff\xff\x85\0\0\0\x01\0\0\0\x95\0\0\0\0\0\0\0",
            Ok(28679),
            "get of a string that ends before the count of turns",
        ),
        (
            b"\xb7\x01\0\0\x01\0\0\0\xbf\xa2\0\0\0\0\0\0\x07\x02\0\0\xf0\xff\xff\xff\
\xbf\xa3\0\0\0\0\0\0\x07\x03\0\0\xb9\xff\xff\xff\x85\0\0\0\x01\0\0\0\x95\0\0\0\0\0\0\0",
            S2,
            "get of a string that ends behind it",
        ),
        (
            b"\xb7\x01\0\0\x02\0\0\0\xbf\xa2\0\0\0\0\0\0\x07\x02\0\0\xf0\xff\xff\xff\
\xbf\xa3\0\0\0\0\0\0\x07\x03\0\0\xe8\xff\xff\xff\x85\0\0\0\x01\0\0\0\x95\0\0\0\0\0\0\0",
            S2,
            "get of a count",
        ),
        (
            b"\xb7\x01\0\0\x02\0\0\0\xbf\xa2\0\0\0\0\0\0\x07\x02\0\0\xf0\xff\xff\xff\
\xbf\xa3\0\0\0\0\0\0\x07\x03\0\0\xe8\xff\xff\xff\x85\0\0\0\x0c\0\0\0\x95\0\0\0\0\0\0\0",
            Ok(28679),
            "read of a count",
        ),
        (
            b"\xb7\x01\0\0\x02\0\0\0\xbf\xa2\0\0\0\0\0\0\x07\x02\0\0\xf0\xff\xff\xff\
\xbf\xa3\0\0\0\0\0\0\x07\x03\0\0\xf1\xff\xff\xff\x85\0\0\0\x0c\0\0\0\x95\0\0\0\0\0\0\0",
            S2,
            "read of a count into the count of turns",
        ),
        (
            b"\xb7\x01\0\0\x03\0\0\0\xbf\xa2\0\0\0\0\0\0\x07\x02\0\0\xf0\xff\xff\xff\
\xbf\xa3\0\0\0\0\0\0\x07\x03\0\0\xe8\xff\xff\xff\x85\0\0\0\x0c\0\0\0\x95\0\0\0\0\0\0\0",
            S2,
            "read of a histogram",
        ),
        (
            b"\xb7\x01\0\0\0\0\0\0\xbf\xa2\0\0\0\0\0\0\x07\x02\0\0\xf0\xff\xff\xff\
\xbf\xa3\0\0\0\0\0\0\x07\x03\0\0\xe8\xff\xff\xff\x85\0\0\0\x0c\0\0\0\x95\0\0\0\0\0\0\0",
            S2,
            "read of a number as an aggregation",
        ),
        (
            b"\xb7\x01\0\0\x04\0\0\0\x85\0\0\0\x06\0\0\0\x95\0\0\0\0\0\0\0",
            S2,
            "clear of a map that is not there",
        ),
        (
            b"\xb7\x01\0\0\x02\0\0\0\x85\0\0\0\x06\0\0\0\x95\0\0\0\0\0\0\0",
            Ok(12291),
            "clear of a map of counts",
        ),
        (
            b"\xb7\x01\0\0\x02\0\0\0\xbf\xa2\0\0\0\0\0\0\x07\x02\0\0\xf0\xff\xff\xff\
\x79\x23\0\0\0\0\0\0\x85\0\0\0\x04\0\0\0\x95\0\0\0\0\0\0\0",
            Ok(24582),
            "a number that was loaded is counted",
        ),
        (
            b"\xb7\x01\0\0\x02\0\0\0\xbf\xa2\0\0\0\0\0\0\x07\x02\0\0\xf0\xff\xff\xff\
\x85\0\0\0\x04\0\0\0\x95\0\0\0\0\0\0\0",
            S2,
            "an unset number is counted",
        ),
        (
            b"\xb7\x01\0\0\0\0\0\0\xb7\x02\0\0\0\0\0\0\xb7\x03\0\0\x01\0\0\0\x85\0\0\0\x05\0\0\0\x95\0\0\0\0\0\0\0",
            Ok(20485),
            "print of all rows",
        ),
        (
            b"\xb7\x01\0\0\0\0\0\0\xb7\x02\0\0\0\0\0\0\xb7\x03\0\0\0\0\0\0\x85\0\0\0\x05\0\0\0\x95\0\0\0\0\0\0\0",
            S2,
            "print divided by 0",
        ),
        (
            b"\xb7\x01\0\0\0\0\0\0\xbf\xa2\0\0\0\0\0\0\x07\x02\0\0\xf8\xff\xff\xff\x85\0\0\0\x08\0\0\0\x95\0\0\0\0\0\0\0",
            Ok(20485),
            "printf of the frame's last eight bytes",
        ),
        (
            b"\xb7\x01\0\0\x01\0\0\0\xbf\xa2\0\0\0\0\0\0\x07\x02\0\0\xf8\xff\xff\xff\x85\0\0\0\x08\0\0\0\x95\0\0\0\0\0\0\0",
            S2,
            "printf with a format that is not there",
        ),
        (
            b"\xb4\x01\0\0\xff\xff\xff\xff\x85\0\0\0\x0a\0\0\0\x95\0\0\0\0\0\0\0",
            S2,
            "cut at a line that only 32-bit arithmetic gave",
        ),
        (
            b"\xb7\x01\0\0\x07\0\0\0\x85\0\0\0\x0a\0\0\0\xbf\x10\0\0\0\0\0\0\x95\0\0\0\0\0\0\0",
            S2,
            "a read of R1 after a call",
        ),
        (
            b"\x85\0\0\0\x0d\0\0\0\x95\0\0\0\0\0\0\0",
            S2,
            "a helper that is not there",
        ),
    ];
    for (bytes, answer, name) in rows {
        assert!(rt; bytes.len() <= 64);
        assert_eq!(rt; check_code(rt.alloc(), bytes, &typed, 0), answer, "{name}");
    }
    Ok(())
}
