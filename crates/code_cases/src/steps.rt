// Steps, told as text.

use anyhow::Result;
use bt_core::item::Item;
use bt_core::key::Key;
use bt_core::step::{ObjectId, Op, Step};
use bt_core::value::Value;

/// Tells values after each other, each with a blank before it.
fn tell_values<R: Print>(rt: &R, values: &[Value]) -> Result<()> {
    for value in values {
        match value {
            Value::Int(number) => print!(rt; " {number}")?,
            Value::Str(text) => print!(rt; " \"{}\"", str::from_utf8(text.bytes())?)?,
        }
    }
    Ok(())
}

/// Tells an operation with a key: its word, and the key in brackets.
fn tell_keyed<R: Print>(rt: &R, word: &str, key: &Key) -> Result<()> {
    print!(rt; "{word} [")?;
    tell_values(rt, key.parts())?;
    print!(rt; " ]")?;
    Ok(())
}

/// Tells an item that is put out: its values, or of a map how many rows it has.
fn tell_item<R: Print>(rt: &R, item: &Item) -> Result<()> {
    match item {
        Item::Printf { format, values } => {
            print!(rt; "print by format {format}:")?;
            tell_values(rt, values.as_slice())?;
        }
        Item::Map {
            map,
            rows,
            top,
            div,
        } => print!(rt;
            "print map {}: {} rows, top {top}, div {div}",
            map.0,
            rows.len()
        )?,
        Item::Cut { line } => print!(rt; "cut in line {line}")?,
        Item::Lost { cpu, count } => print!(rt; "lost {count} on CPU {cpu}")?,
    }
    Ok(())
}

/// Tells what a step is made on.
fn tell_object<R: Print>(rt: &R, object: ObjectId) -> Result<()> {
    match object {
        ObjectId::Shared { map, part } => print!(rt; "    map {}, part {part}: ", map.0)?,
        ObjectId::Cpu(actor) => print!(rt; "    tables of actor {actor}: ")?,
        ObjectId::Clock => print!(rt; "    clock: ")?,
        ObjectId::Out => print!(rt; "    output: ")?,
    }
    Ok(())
}

/// Tells what a step does.
fn tell_op<R: Print>(rt: &R, op: &Op) -> Result<()> {
    match op {
        Op::Get(key) => tell_keyed(rt, "get", key)?,
        Op::Set(key, value) => {
            tell_keyed(rt, "set", key)?;
            tell_values(rt, std::slice::from_ref(value))?;
        }
        Op::Delete(key) => tell_keyed(rt, "delete", key)?,
        Op::Clear => print!(rt; "clear")?,
        Op::Zero => print!(rt; "zero")?,
        Op::ReadAll => print!(rt; "read all")?,
        Op::Add(map, key, number) => {
            print!(rt; "map {}, ", map.0)?;
            tell_keyed(rt, "add", key)?;
            print!(rt; " {number}")?;
        }
        Op::ClearOf(map) => print!(rt; "map {}, clear", map.0)?,
        Op::ZeroOf(map) => print!(rt; "map {}, zero", map.0)?,
        Op::Read(map) => print!(rt; "map {}, read", map.0)?,
        Op::Cross(tick) => print!(rt; "cross {tick}")?,
        Op::Check => print!(rt; "check")?,
        Op::Stop => print!(rt; "stop")?,
        Op::Emit(item) => tell_item(rt, item)?,
    }
    Ok(())
}

/// Tells steps, each in a line of its own.
pub(crate) fn tell_steps<R: Print>(rt: &R, steps: &[Step]) -> Result<()> {
    for step in steps {
        let Step { object, op, .. } = step;
        tell_object(rt, *object)?;
        tell_op(rt, op)?;
        println!(rt)?;
    }
    Ok(())
}
