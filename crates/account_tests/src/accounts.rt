// Accounts byte by byte: each kind of entry, and each place where bytes can be wrong.
use account_format::error::AccountFault;
use account_format::reading::read_account;
use account_format::scope::Scope;
use account_format::writing::write_account;
use bt_core::item::Item;
use bt_core::items::Items;
use bt_core::key::Key;
use bt_core::map::{AggKind, MapDecl, MapId, MapKind, Shape};
use bt_core::memory::Memory;
use bt_core::step::{ObjectId, Op, Reply, Step};
use bt_core::text::Str64;
use bt_core::value::Value;
use std::alloc::Global;
use std::test::Fail;
use step_list::list::StepList;
use weave::woven::Woven;

/// `@`, which counts and has no key; `@i`, which holds numbers by numbers; `@s`, which holds strings by a string and a number.
fn maps(alloc: Global) -> Result<Vec<MapDecl>, Memory> {
    let mut maps = Vec::new(alloc);
    maps.push(MapDecl {
        name: Items::of(Vec::from_slice(alloc, b"@")?),
        kind: MapKind::Aggs(AggKind::Count),
        key_shape: Items::new(alloc),
    })?;
    maps.push(MapDecl {
        name: Items::of(Vec::from_slice(alloc, b"@i")?),
        kind: MapKind::Ints,
        key_shape: Items::of(vec![in alloc; Shape::Int]?),
    })?;
    maps.push(MapDecl {
        name: Items::of(Vec::from_slice(alloc, b"@s")?),
        kind: MapKind::Strs,
        key_shape: Items::of(vec![in alloc; Shape::Str, Shape::Int]?),
    })?;
    Ok(maps)
}

/// How many rows there are.
const ROWS: u32 = 15;

/// The entry of each row.
fn entry(row: u32) -> &'static [u8] {
    match row {
        0 => b"\0\0\0\0\x01\0\0\0\0\0\0\0\x07\0\0\0\0\x01\0\0\0\0\0\0\0",
        1 => b"\x01\0\0\0\x02\x01\0\0\0\0\0\0\x01\x01\0\0\0\x07\0\0\0\0\0\0\0",
        2 => {
            b"\0\0\0\0\x03\0\0\0\0\0\0\0\x02\x02\0\0\0\
ab\0\0\0\0\0\0\0\0\0\0\0\0\0\0\0\0\0\0\0\0\0\0\0\0\0\0\0\0\0\0\0\0\0\0\0\0\0\0\0\0\0\0\0\0\0\0\0\0\0\0\0\0\0\0\0\0\0\0\0\0\0\0\
\xff\xff\xff\xff\xff\xff\xff\xff\
c\0\0\0\0\0\0\0\0\0\0\0\0\0\0\0\0\0\0\0\0\0\0\0\0\0\0\0\0\0\0\0\0\0\0\0\0\0\0\0\0\0\0\0\0\0\0\0\0\0\0\0\0\0\0\0\0\0\0\0\0\0\0\0"
        }
        3 => b"\0\0\0\0\x04\0\0\0\0\0\0\0\x03\x01\0\0\0\xfe\xff\xff\xff\xff\xff\xff\xff",
        4 => b"\0\0\0\0\x05\0\0\0\0\0\0\0\x04\x01\0\0\0\x05\0\0\0",
        5 => b"\0\0\0\0\x06\0\0\0\0\0\0\0\x05\x02\0\0\0\0\0\0\0",
        6 => b"\0\0\0\0\x07\0\0\0\0\0\0\0\x06\x01\0\0\0\x07\0\0\0",
        7 =>
            b"\x01\0\0\0\xff\xff\xff\xff\xff\xff\xff\xff\x07\0\0\0\0\xff\xff\xff\xff\xff\xff\xff\xff",
        8 => b"\0\0\0\0\x09\0\0\0\0\0\0\0\x08\0\0\0\0\x01\0\0\0",
        9 => b"\x01\0\0\0\x0a\0\0\0\0\0\0\0\x09\0\0\0\0\0\0\0\0",
        10 => b"\0\0\0\0\x0b\0\0\0\0\0\0\0\x0a\0\0\0\0\x01\0\0\0",
        11 => b"\0\0\0\0\x0c\0\0\0\0\0\0\0\x0b\x02\0\0\0",
        12 => b"\0\0\0\0\x0d\0\0\0\0\0\0\0\x0c",
        13 => b"\0\0\0\0\x0e\0\0\0\0\0\0\0\x0d",
        _ => b"\x01\0\0\0\x0f\0\0\0\0\0\0\0\x0e",
    }
}

/// The actor, the object and the stamp of each row.
fn place(row: u32) -> (u32, ObjectId, u64) {
    match row {
        0 => (0, ObjectId::Cpu(0), 1),
        1 => (1, part(1, 7), 258),
        2 => (0, part(2, 3), 3),
        3 => (0, part(1, 7), 4),
        4 => (0, part(1, 5), 5),
        5 => (0, part(2, 0), 6),
        6 => (0, part(1, 7), 7),
        7 => (1, ObjectId::Cpu(1), 0xffff_ffff_ffff_ffff),
        8 => (0, ObjectId::Cpu(1), 9),
        9 => (1, ObjectId::Cpu(0), 10),
        10 => (0, ObjectId::Cpu(1), 11),
        11 => (0, ObjectId::Clock, 12),
        12 => (0, ObjectId::Clock, 13),
        13 => (0, ObjectId::Clock, 14),
        _ => (1, ObjectId::Out, 15),
    }
}

fn part(map: u32, part: u32) -> ObjectId {
    ObjectId::Shared {
        map: MapId(map),
        part,
    }
}

fn number_key(alloc: Global, number: i64) -> Result<Key, Memory> {
    Ok(Key::of(vec![in alloc; Value::Int(number)]?))
}

/// What was done in each row.
fn op(alloc: Global, row: u32) -> Result<Op, Memory> {
    match row {
        0 => Ok(Op::Add(MapId(0), Key::of(Vec::new(alloc)), 1)),
        1 => Ok(Op::Get(number_key(alloc, 7)?)),
        2 => {
            let parts = vec![in alloc; Value::Str(Str64::of(b"ab")), Value::Int(-1)]?;
            Ok(Op::Set(Key::of(parts), Value::Str(Str64::of(b"c"))))
        }
        3 => Ok(Op::Delete(number_key(alloc, -2)?)),
        4 => Ok(Op::ReadAll),
        5 => Ok(Op::Clear),
        6 => Ok(Op::Zero),
        7 => Ok(Op::Add(MapId(0), Key::of(Vec::new(alloc)), -1)),
        8 => Ok(Op::Read(MapId(0))),
        9 => Ok(Op::ClearOf(MapId(0))),
        10 => Ok(Op::ZeroOf(MapId(0))),
        11 => Ok(Op::Cross(2)),
        12 => Ok(Op::Check),
        13 => Ok(Op::Stop),
        _ => Ok(Op::Emit(Item::Cut { line: 0 })),
    }
}

/// The account of one row and this text, from its bytes by hand.
fn spelled(alloc: Global, row: u32, text: &[u8]) -> Result<Vec<u8>, Memory> {
    let mut bytes = Vec::from_slice(alloc, b"BACCT001\x01\0\0\0\0\0\0\0")?;
    bytes.extend_from_slice(entry(row))?;
    bytes.extend_from_slice(&(text.len() as u64).to_le_bytes())?;
    bytes.extend_from_slice(text)?;
    Ok(bytes)
}

#[test]
fn each_kind_of_entry_is_written_and_read(rt: HostRuntime) -> Result<(), Fail> {
    let alloc = rt.alloc();
    let maps = maps(alloc)?;
    let scope = Scope {
        actors: 2,
        ticks: 3,
        maps: maps.as_slice(),
    };
    let text: &[u8] = b"@: 1\n\n";
    for row in 0..ROWS {
        let (actor, object, stamp) = place(row);
        let mut list = StepList::new(alloc);
        list.reserve(alloc)?;
        let mut pushed = op(alloc, row)?;
        list.push_reserved(actor, object, stamp, &mut pushed, &mut Reply::Done);
        let woven = Woven::of(vec![in alloc; list]?)?;
        let bytes = write_account(alloc, &woven, text)?;
        let expected = spelled(alloc, row, text)?;
        assert!(rt; bytes.as_slice() == expected.as_slice());
        let mut account = read_account(alloc, &scope, bytes.as_slice())?;
        let step = Step {
            actor,
            object,
            stamp,
            op: op(alloc, row)?,
            reply: Reply::Done,
        };
        assert!(rt; account.entries.next(alloc)? == Some(step));
        assert!(rt; account.entries.next(alloc)?.is_none());
        assert!(rt; account.text == text);
    }
    assert_eq!(rt; spelled(alloc, 0, text)?.len(), 55);
    Ok(())
}

/// Bytes that are wrong, each with where they are.
const WRONG: [(&[u8], u64); 26] = [
    // The magic.
    (b"", 0),
    (b"BACCT00", 0),
    (b"BACCT002\0\0\0\0\0\0\0\0\0\0\0\0\0\0\0\0", 0),
    // The number of entries.
    (b"BACCT001\0\0\0\0\0\0\0", 8),
    // An entry that is not there, of one and of very many; one that is cut, and one behind another.
    (b"BACCT001\x01\0\0\0\0\0\0\0", 16),
    (b"BACCT001\xff\xff\xff\xff\xff\xff\xff\xff", 16),
    (
        b"BACCT001\x01\0\0\0\0\0\0\0\0\0\0\0\x01\0\0\0\0\0\0\0\x07\0\0\0\0\x01\0\0\0\0\0\0",
        16,
    ),
    (
        b"BACCT001\x02\0\0\0\0\0\0\0\0\0\0\0\x01\0\0\0\0\0\0\0\x0c\0\0\0\0\x02\0\0\0\0\0\0\0\x0f\0\0\0\0\0\0\0\0",
        29,
    ),
    // Kinds 0 and 15.
    (
        b"BACCT001\x01\0\0\0\0\0\0\0\0\0\0\0\x01\0\0\0\0\0\0\0\0\0\0\0\0\0\0\0\0",
        16,
    ),
    (
        b"BACCT001\x01\0\0\0\0\0\0\0\0\0\0\0\x01\0\0\0\0\0\0\0\x0f\0\0\0\0\0\0\0\0",
        16,
    ),
    // An actor that is not there.
    (
        b"BACCT001\x01\0\0\0\0\0\0\0\x02\0\0\0\x01\0\0\0\0\0\0\0\x0c\0\0\0\0\0\0\0\0",
        16,
    ),
    // A map that is not there, of a shared kind and of a table's.
    (
        b"BACCT001\x01\0\0\0\0\0\0\0\0\0\0\0\x01\0\0\0\0\0\0\0\x04\x03\0\0\0\0\0\0\0\0\0\0\0\0\0\0\0",
        16,
    ),
    (
        b"BACCT001\x01\0\0\0\0\0\0\0\0\0\0\0\x01\0\0\0\0\0\0\0\x08\x03\0\0\0\0\0\0\0\0\0\0\0\0\0\0\0",
        16,
    ),
    // An add on a shared map, and a get on an aggregation.
    (
        b"BACCT001\x01\0\0\0\0\0\0\0\0\0\0\0\x01\0\0\0\0\0\0\0\x07\x01\0\0\0\x01\0\0\0\0\0\0\0\x01\0\0\0\0\0\0\0\0\0\0\0\0\0\0\0",
        16,
    ),
    (
        b"BACCT001\x01\0\0\0\0\0\0\0\0\0\0\0\x01\0\0\0\0\0\0\0\x01\0\0\0\0\0\0\0\0\0\0\0\0",
        16,
    ),
    // Part 8, table 2 of two actors, and tick 3 of three.
    (
        b"BACCT001\x01\0\0\0\0\0\0\0\0\0\0\0\x01\0\0\0\0\0\0\0\x04\x01\0\0\0\x08\0\0\0\0\0\0\0\0\0\0\0",
        16,
    ),
    (
        b"BACCT001\x01\0\0\0\0\0\0\0\0\0\0\0\x01\0\0\0\0\0\0\0\x08\0\0\0\0\x02\0\0\0\0\0\0\0\0\0\0\0",
        16,
    ),
    (
        b"BACCT001\x01\0\0\0\0\0\0\0\0\0\0\0\x01\0\0\0\0\0\0\0\x0b\x03\0\0\0\0\0\0\0\0\0\0\0",
        16,
    ),
    // A string with a byte behind its first zero, and one without a zero.
    (
        b"BACCT001\x01\0\0\0\0\0\0\0\0\0\0\0\x01\0\0\0\0\0\0\0\x01\x02\0\0\0\
a\0c\0\0\0\0\0\0\0\0\0\0\0\0\0\0\0\0\0\0\0\0\0\0\0\0\0\0\0\0\0\0\0\0\0\0\0\0\0\0\0\0\0\0\0\0\0\0\0\0\0\0\0\0\0\0\0\0\0\0\0\0\0\
\x01\0\0\0\0\0\0\0\0\0\0\0\0\0\0\0",
        16,
    ),
    (
        b"BACCT001\x01\0\0\0\0\0\0\0\0\0\0\0\x01\0\0\0\0\0\0\0\x01\x02\0\0\0\
aaaaaaaaaaaaaaaaaaaaaaaaaaaaaaaaaaaaaaaaaaaaaaaaaaaaaaaaaaaaaaaa\
\x01\0\0\0\0\0\0\0\0\0\0\0\0\0\0\0",
        16,
    ),
    // The text's length.
    (b"BACCT001\0\0\0\0\0\0\0\0", 16),
    (b"BACCT001\0\0\0\0\0\0\0\0\0\0\0\0\0\0\0", 16),
    // The text, of which a byte or very many are missing; then the worked account without its last byte.
    (b"BACCT001\0\0\0\0\0\0\0\0\x02\0\0\0\0\0\0\0a", 24),
    (
        b"BACCT001\0\0\0\0\0\0\0\0\xff\xff\xff\xff\xff\xff\xff\xffa",
        24,
    ),
    (
        b"BACCT001\x01\0\0\0\0\0\0\0\0\0\0\0\x01\0\0\0\0\0\0\0\x07\0\0\0\0\x01\0\0\0\0\0\0\0\x06\0\0\0\0\0\0\0@: 1\n",
        49,
    ),
    // Bytes that are left over.
    (b"BACCT001\0\0\0\0\0\0\0\0\x01\0\0\0\0\0\0\0ab", 25),
];

#[test]
fn wrong_bytes_are_told_where_they_begin(rt: HostRuntime) -> Result<(), Fail> {
    let alloc = rt.alloc();
    let maps = maps(alloc)?;
    let scope = Scope {
        actors: 2,
        ticks: 3,
        maps: maps.as_slice(),
    };
    for (place, (bytes, offset)) in WRONG.iter().enumerate() {
        let fault = read_account(alloc, &scope, bytes).err();
        assert_eq!(rt;
            fault,
            Some(AccountFault::BadAccount(*offset)),
            "at {place}"
        );
    }
    Ok(())
}
