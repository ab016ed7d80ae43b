// That what takes memory is made where there is room, and examples of the bytes of keys and of their parts.
use bt_core::boxed::Boxed;
use bt_core::encoding::{encode_key, part_of};
use bt_core::item::Item;
use bt_core::items::Items;
use bt_core::key::Key;
use bt_core::map::MapId;
use bt_core::memory::{Memory, TryCopy};
use bt_core::text::Str64;
use bt_core::value::Value;
use std::alloc::Global;
use std::test::Fail;

/// A list into which an element is inserted in the middle, behind a reservation, and one pushed at the end.
fn inserted(alloc: Global) -> Result<Items<u8>, Memory> {
    let mut list = Items::from_slice(alloc, b"ad")?;
    list.reserve(2)?;
    list.insert(1, b'b')?;
    list.push(b'e')?;
    Ok(list)
}

#[test]
fn lists_and_boxes_are_made(rt: HostRuntime) -> Result<(), Fail> {
    let alloc = rt.alloc();
    assert_eq!(rt; inserted(alloc)?.as_slice(), b"abde".as_slice());
    assert_eq!(rt; Boxed::new(alloc, 7u64)?.try_copy(alloc)?.into_inner(), 7);
    Ok(())
}

#[test]
fn items_are_copied(rt: HostRuntime) -> Result<(), Fail> {
    let alloc = rt.alloc();
    let item = Item::Map {
        map: MapId(3),
        rows: Items::new(alloc),
        top: 5,
        div: 1000,
    };
    assert!(rt;
        matches!(
            item.try_copy(alloc)?,
            Item::Map {
                top: 5,
                div: 1000,
                ..
            }
        )
    );
    Ok(())
}

/// The key of a number and a text.
fn key_of_both(alloc: Global) -> Result<Key, Memory> {
    Ok(Key::of(vec![in alloc; Value::Int(-2), Value::Str(Str64::of(b"k"))]?))
}

#[test]
fn bytes_of_keys_are_made(rt: HostRuntime) -> Result<(), Fail> {
    let alloc = rt.alloc();
    let bytes = encode_key(alloc, &key_of_both(alloc)?)?;
    assert_eq!(rt; bytes.len(), 72);
    assert_eq!(rt;
        &bytes[..9],
        b"\xfe\xff\xff\xff\xff\xff\xff\xffk".as_slice()
    );
    Ok(())
}

/// The part of a key of one value.
fn part_of_one(alloc: Global, value: Value) -> Result<u32, Memory> {
    Ok(part_of(&Key::of(vec![in alloc; value]?)))
}

#[test]
fn keys_go_to_parts_by_the_sums_of_their_bytes(rt: HostRuntime) -> Result<(), Fail> {
    let alloc = rt.alloc();
    for (number, part) in [(5, 5), (13, 5), (-1, 0)] {
        assert_eq!(rt;
            part_of_one(alloc, Value::Int(number))?,
            part,
            "at {number}"
        );
    }
    assert_eq!(rt; part_of_one(alloc, Value::Str(Str64::of(b"ab")))?, 3);
    Ok(())
}
