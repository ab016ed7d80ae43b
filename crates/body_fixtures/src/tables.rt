// How tables write replies and operations, and walks of their rows.
use crate::moments::Moment;
use crate::walks::walk_text;
use crate::worked::push_rows;
use bt_core::agg::{Agg, Buckets};
use bt_core::encoding::part_of;
use bt_core::ending::Ending;
use bt_core::item::{Cell, Item};
use bt_core::items::Items;
use bt_core::key::Key;
use bt_core::map::{AggKind, MapId, MapKind};
use bt_core::step::{ObjectId, Op, Reply, Step};
use bt_core::text::Str64;
use bt_core::value::Value;
use map_ops::parts::part_count;
use std::alloc::Global;
use std::test::Fail;

/// A number or a string.
#[derive(Clone, Copy)]
pub enum Part {
    N(i64),
    S(&'static [u8]),
}

/// What is under a key: a value, or the aggregate of so many numbers 1.
#[derive(Clone, Copy)]
pub enum Under {
    Value(Part),
    Count(i64),
}

/// What is replied: the value of a key, the rows of a map over all its parts, or the aggregates of a table.
#[derive(Clone, Copy)]
pub enum Says {
    Value(Part),
    Rows(&'static [(&'static [Part], Part)]),
    Counts(&'static [(&'static [Part], i64)]),
}

/// What a walk does: single operations, and those on all parts of a map or on the tables of all actors. Maps and formats
/// have their numbers.
#[derive(Clone, Copy)]
pub enum Does {
    Get(u32, &'static [Part]),
    Set(u32, &'static [Part], Part),
    Delete(u32, &'static [Part]),
    Add(u32, &'static [Part], i64),
    ReadParts(u32),
    ClearParts(u32),
    ZeroParts(u32),
    ReadTables(u32),
    ClearTables(u32),
    ZeroTables(u32),
    Stop,
    Printf(u32, &'static [Part]),
    Print(u32, &'static [(&'static [Part], Under)], u64, i64),
    Cut(u32),
}

/// A body of a script by its number, the moment and the replies, and what the walk does and how it ends.
pub type Row = (
    &'static [u8],
    usize,
    Moment,
    &'static [Says],
    &'static [Does],
    Ending,
);

fn value_of(part: Part) -> Value {
    match part {
        Part::N(n) => Value::Int(n),
        Part::S(bytes) => Value::Str(Str64::of(bytes)),
    }
}

fn key_of(alloc: Global, parts: &[Part]) -> Result<Key, Fail> {
    let mut values = Vec::new(alloc);
    for part in parts {
        values.push(value_of(*part))?;
    }
    if values.len() > 4 {
        return Err(Fail::from("more parts than a key has"));
    }
    Ok(Key::of(values))
}

/// The aggregate of so many numbers 1.
fn count_of(count: i64) -> Agg {
    Agg {
        kind: AggKind::Count,
        count,
        sum: count,
        least: Some(1),
        greatest: Some(1),
        buckets: Buckets::Plain,
    }
}

fn pairs_of(alloc: Global, rows: &[(&[Part], Part)]) -> Result<Items<(Key, Value)>, Fail> {
    let mut pairs = Items::new(alloc);
    for (parts, value) in rows {
        pairs.push((key_of(alloc, *parts)?, value_of(*value)))?;
    }
    Ok(pairs)
}

fn aggs_of(alloc: Global, rows: &[(&[Part], i64)]) -> Result<Items<(Key, Agg)>, Fail> {
    let mut aggs = Items::new(alloc);
    for (parts, count) in rows {
        aggs.push((key_of(alloc, *parts)?, count_of(*count)))?;
    }
    Ok(aggs)
}

fn replies_of(alloc: Global, said: &[Says]) -> Result<Items<Reply>, Fail> {
    let mut replies = Items::new(alloc);
    for says in said {
        match *says {
            Says::Value(part) => replies.push(Reply::Value(value_of(part)))?,
            Says::Rows(rows) => push_rows(alloc, &mut replies, pairs_of(alloc, rows)?)?,
            Says::Counts(rows) => replies.push(Reply::Aggs(aggs_of(alloc, rows)?))?,
        }
    }
    Ok(replies)
}

fn are_parts(parts: &[Part], values: &[Value]) -> bool {
    for (part, value) in parts.iter().zip(values) {
        if value_of(*part) != *value {
            return false;
        }
    }
    parts.len() == values.len()
}

fn is_under(under: Under, cell: &Cell) -> bool {
    match (under, cell) {
        (Under::Value(part), Cell::Value(value)) => value_of(part) == *value,
        (Under::Count(count), Cell::Agg(agg)) => count_of(count) == *agg,
        _ => false,
    }
}

fn are_cells(rows: &[(&[Part], Under)], cells: &[(Key, Cell)]) -> bool {
    for ((parts, under), (key, cell)) in rows.iter().zip(cells) {
        if !are_parts(*parts, key.parts()) || !is_under(*under, cell) {
            return false;
        }
    }
    rows.len() == cells.len()
}

fn is_item(does: Does, item: &Item) -> bool {
    match (does, item) {
        (Does::Printf(number, parts), Item::Printf { format, values }) => {
            number == *format && are_parts(parts, values.as_slice())
        }
        (
            Does::Print(number, wanted, most, by),
            Item::Map {
                map,
                rows,
                top,
                div,
            },
        ) => number == map.0 && most == *top && by == *div && are_cells(wanted, rows.as_slice()),
        (Does::Cut(number), Item::Cut { line }) => number == *line,
        _ => false,
    }
}

/// Whether an operation is that of a table, whatever its object.
fn is_op(does: Does, op: &Op) -> bool {
    match (does, op) {
        (Does::Get(_, parts), Op::Get(key)) => are_parts(parts, key.parts()),
        (Does::Set(_, parts, part), Op::Set(key, value)) => {
            are_parts(parts, key.parts()) && value_of(part) == *value
        }
        (Does::Delete(_, parts), Op::Delete(key)) => are_parts(parts, key.parts()),
        (Does::Add(number, parts, n), Op::Add(map, key, added)) => {
            number == map.0 && n == *added && are_parts(parts, key.parts())
        }
        (Does::ReadParts(_), Op::ReadAll) => true,
        (Does::ClearParts(_), Op::Clear) => true,
        (Does::ZeroParts(_), Op::Zero) => true,
        (Does::ReadTables(number), Op::Read(map)) => number == map.0,
        (Does::ClearTables(number), Op::ClearOf(map)) => number == map.0,
        (Does::ZeroTables(number), Op::ZeroOf(map)) => number == map.0,
        (Does::Stop, Op::Stop) => true,
        (_, Op::Emit(item)) => is_item(does, item),
        _ => false,
    }
}

/// On how many objects an operation is made, beside so many actors.
fn objects_of(does: Does, actors: u32) -> u32 {
    match does {
        Does::ReadParts(_) | Does::ClearParts(_) | Does::ZeroParts(_) => part_count(MapKind::Ints),
        Does::ReadTables(_) | Does::ClearTables(_) | Does::ZeroTables(_) => actors,
        _ => 1,
    }
}

/// The part of a map for an operation on a key, or else the one with this number.
fn part_at(op: &Op, number: u32) -> u32 {
    match op {
        Op::Get(key) | Op::Set(key, _) | Op::Delete(key) => part_of(key),
        _ => number,
    }
}

/// The object with this number of those on which an actor makes an operation.
fn object_at(does: Does, op: &Op, number: u32, actor: u32) -> ObjectId {
    match does {
        Does::Get(map, _)
        | Does::Set(map, _, _)
        | Does::Delete(map, _)
        | Does::ReadParts(map)
        | Does::ClearParts(map)
        | Does::ZeroParts(map) => {
            let part = part_at(op, number);
            let map = MapId(map);
            ObjectId::Shared { map, part }
        }
        Does::Add(_, _, _) => ObjectId::Cpu(actor),
        Does::ReadTables(_) | Does::ClearTables(_) | Does::ZeroTables(_) => ObjectId::Cpu(number),
        Does::Stop => ObjectId::Clock,
        Does::Printf(_, _) | Does::Print(_, _, _, _) | Does::Cut(_) => ObjectId::Out,
    }
}

/// Whether a step is this operation on the object with this number.
fn is_step(does: Does, step: &Step, number: u32, actor: u32) -> bool {
    is_op(does, &step.op) && step.object == object_at(does, &step.op, number, actor)
}

/// The steps behind those of this operation on all of its objects, where the steps begin with these.
fn passed(steps: &[Step], does: Does, moment: Moment) -> Option<&[Step]> {
    let mut rest = steps;
    for number in 0..objects_of(does, moment.actors) {
        match rest {
            [step, others @ ..] if is_step(does, step, number, moment.actor) => rest = others,
            _ => return None,
        }
    }
    Some(rest)
}

/// Whether the steps are just these operations.
fn are_steps(steps: &[Step], wanted: &[Does], moment: Moment) -> bool {
    let mut rest = steps;
    for does in wanted {
        match passed(rest, *does, moment) {
            Some(others) => rest = others,
            None => return false,
        }
    }
    rest.is_empty()
}

/// Whether the walk of a row does what it says, and ends so.
///
/// # Errors
///
/// Those of [`walk_text`].
pub fn holds(alloc: Global, row: &Row) -> Result<bool, Fail> {
    let (text, number, moment, said, wanted, end) = *row;
    let (ending, steps) = walk_text(alloc, text, number, moment, replies_of(alloc, said)?)?;
    Ok(ending == end && are_steps(steps.as_slice(), wanted, moment))
}
