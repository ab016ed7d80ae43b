// Steps of all kinds, woven of the lists of three actors: what is asked of the woven list is the list that stands here, row by row.
use bt_core::agg::{Agg, Buckets};
use bt_core::item::Item;
use bt_core::items::Items;
use bt_core::key::Key;
use bt_core::map::{AggKind, MapId};
use bt_core::memory::Memory;
use bt_core::step::{ObjectId, Op, Reply, Step};
use bt_core::text::Str64;
use bt_core::value::Value;
use std::alloc::Global;
use std::test::Fail;
use step_list::list::StepList;
use weave::woven::Woven;

/// How many rows there are.
const ROWS: usize = 15;

fn number_key(alloc: Global, number: i64) -> Result<Key, Memory> {
    Ok(Key::of(vec![in alloc; Value::Int(number)]?))
}

fn text_key(alloc: Global, text: &[u8]) -> Result<Key, Memory> {
    Ok(Key::of(vec![in alloc; Value::Str(Str64::of(text))]?))
}

fn count(count: i64) -> Agg {
    Agg {
        kind: AggKind::Count,
        count,
        sum: 0,
        least: None,
        greatest: None,
        buckets: Buckets::Plain,
    }
}

const PART_0_OF_0: ObjectId = ObjectId::Shared {
    map: MapId(0),
    part: 0,
};

const PART_1_OF_0: ObjectId = ObjectId::Shared {
    map: MapId(0),
    part: 1,
};

const PART_0_OF_1: ObjectId = ObjectId::Shared {
    map: MapId(1),
    part: 0,
};

const PART_300_OF_2: ObjectId = ObjectId::Shared {
    map: MapId(2),
    part: 300,
};

/// The actor, the object and the stamp of each row, in the order of the list: equal stamps stand at several objects.
const PLACES: [(u32, ObjectId, u64); ROWS] = [
    (300, PART_0_OF_0, 1),
    (0, PART_1_OF_0, 1),
    (1, ObjectId::Cpu(1), 1),
    (1, PART_0_OF_1, 2),
    (0, ObjectId::Clock, 2),
    (300, ObjectId::Out, 2),
    (0, PART_0_OF_1, 3),
    (1, PART_300_OF_2, 3),
    (300, ObjectId::Cpu(0), 3),
    (1, PART_0_OF_0, 4),
    (300, ObjectId::Cpu(0), 4),
    (0, ObjectId::Clock, 4),
    (300, ObjectId::Cpu(1), 5),
    (0, ObjectId::Clock, 5),
    (1, PART_1_OF_0, 6),
];

/// The rows of the actors 1, 300 and 0.
const LISTS: [&[usize]; 3] = [&[2, 3, 7, 9, 14], &[0, 5, 8, 10, 12], &[1, 4, 6, 11, 13]];

/// What was done in each row.
fn op(alloc: Global, row: usize) -> Result<Op, Memory> {
    match row {
        0 => Ok(Op::Set(number_key(alloc, 7)?, Value::Int(1))),
        1 => Ok(Op::Get(number_key(alloc, 8)?)),
        2 => Ok(Op::Add(MapId(3), Key::of(Vec::new(alloc)), 4)),
        3 => Ok(Op::Delete(text_key(alloc, b"a")?)),
        4 => Ok(Op::Check),
        5 => Ok(Op::Emit(Item::Cut { line: 4 })),
        6 => Ok(Op::Clear),
        7 => Ok(Op::Zero),
        8 => Ok(Op::ClearOf(MapId(3))),
        9 => Ok(Op::ReadAll),
        10 => Ok(Op::ZeroOf(MapId(3))),
        11 => Ok(Op::Cross(2)),
        12 => Ok(Op::Read(MapId(3))),
        13 => Ok(Op::Stop),
        _ => Ok(Op::Get(text_key(alloc, b"b")?)),
    }
}

/// What was replied in each row.
fn reply(alloc: Global, row: usize) -> Result<Reply, Memory> {
    match row {
        1 => Ok(Reply::Value(Value::Int(-5))),
        4 => Ok(Reply::Stopped(false)),
        9 => {
            let pairs = vec![in alloc; (number_key(alloc, 7)?, Value::Int(1))]?;
            Ok(Reply::Pairs(Items::of(pairs)))
        }
        11 => Ok(Reply::Last(true)),
        12 => {
            let aggs = vec![in alloc; (text_key(alloc, b"c")?, count(9))]?;
            Ok(Reply::Aggs(Items::of(aggs)))
        }
        14 => Ok(Reply::Value(Value::Str(Str64::of(b"text")))),
        _ => Ok(Reply::Done),
    }
}

fn step(alloc: Global, row: usize) -> Result<Step, Memory> {
    let (actor, object, stamp) = PLACES[row % ROWS];
    Ok(Step {
        actor,
        object,
        stamp,
        op: op(alloc, row)?,
        reply: reply(alloc, row)?,
    })
}

/// The list of an actor whose steps are these rows.
fn list_of(alloc: Global, rows: &[usize]) -> Result<StepList, Memory> {
    let mut list = StepList::new(alloc);
    for row in rows {
        let (actor, object, stamp) = PLACES[*row % ROWS];
        let mut op = op(alloc, *row)?;
        let mut reply = reply(alloc, *row)?;
        list.reserve(alloc)?;
        list.push_reserved(actor, object, stamp, &mut op, &mut reply);
    }
    Ok(list)
}

/// The lists of the actors, woven.
fn woven(alloc: Global) -> Result<Woven, Memory> {
    let mut lists = Vec::new(alloc);
    for rows in LISTS {
        lists.push(list_of(alloc, rows)?)?;
    }
    Woven::of(lists)
}

/// Whether a step is that of a row.
fn is_row(alloc: Global, step: &Step, row: usize) -> Result<bool, Memory> {
    Ok(*step == self::step(alloc, row)?)
}

/// Whether there is a step, and it is that of a row; behind the last row whether there is none.
fn is_at(alloc: Global, step: Option<Step>, row: usize) -> Result<bool, Memory> {
    match step {
        Some(step) => Ok(row < ROWS && is_row(alloc, &step, row)?),
        None => Ok(ROWS <= row),
    }
}

#[test]
fn a_woven_list_is_told_as_a_vector(rt: HostRuntime) -> Result<(), Fail> {
    let alloc = rt.alloc();
    let woven = woven(alloc)?;
    let steps = woven.to_vec(alloc)?;
    assert!(rt; woven.len() == ROWS && steps.len() == ROWS);
    for (row, step) in steps.as_slice().iter().enumerate() {
        assert!(rt; is_row(alloc, step, row)?, "row {row}");
    }
    Ok(())
}

#[test]
fn a_woven_list_is_told_by_its_places(rt: HostRuntime) -> Result<(), Fail> {
    let alloc = rt.alloc();
    let woven = woven(alloc)?;
    let ordered = woven.in_order(alloc)?;
    assert_eq!(rt; ordered.len(), ROWS);
    for row in 0..=ROWS {
        assert!(rt; is_at(alloc, ordered.get(alloc, row)?, row)?, "row {row}");
    }
    assert!(rt; ordered.get(alloc, usize::MAX)?.is_none());
    Ok(())
}

#[test]
fn a_woven_list_is_told_step_by_step(rt: HostRuntime) -> Result<(), Fail> {
    let alloc = rt.alloc();
    let woven = woven(alloc)?;
    let ordered = woven.in_order(alloc)?;
    let mut left = ordered.steps();
    for row in 0..ROWS + 2 {
        assert!(rt; is_at(alloc, left.next(alloc)?, row)?, "row {row}");
    }
    Ok(())
}
