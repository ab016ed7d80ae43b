// What the types of a step say of it. These functions are for proofs: they only read the step.
ghost use Rattle.std.specs.Prelude.{◌<◌, ◌^◌, FitsSigned};
ghost use Rattle.std.specs.Int.{w64};
ghost use Rattle.std.specs.List.{AllByRecursion};
ghost use Rattle.bt_core.specs.KeyBytes.{FitsValue};
ghost use Rattle.account_format.specs.Entries.{FitsKey, FitsObject, FitsOp, FitsStep};

use bt_core::key::Key;
use bt_core::map::MapId;
use bt_core::step::{ObjectId, Op, Step};
use bt_core::value::Value;

/// The number has 64 bits.
fn number_is_held(number: i64)
    ensures { FitsSigned w64 number }
{
    let _held = number;
}

/// A value is a number of 64 bits or a string.
fn value_is_held(value: &Value)
    ensures { FitsValue value.now }
{
    match value {
        Value::Int(number) => number_is_held(*number),
        Value::Str(text) => {
            let _held = text.bytes();
        }
    }
}

/// A key is at most four such values.
fn key_is_held(key: &Key)
    ensures { FitsKey key.now }
{
    for part in key.parts() {
        value_is_held(part);
    }
}

/// The number of a map has 32 bits.
fn map_is_held(map: MapId)
    ensures { map.0 < 2 ^ 32 }
{
    let _held = map.0;
}

/// So have the numbers of an object.
fn object_is_held(object: ObjectId)
    ensures { FitsObject object }
{
    match object {
        ObjectId::Shared { map, part: _ } => map_is_held(map),
        ObjectId::Cpu(_) | ObjectId::Clock | ObjectId::Out => (),
    }
}

/// An operation has a key, a value and numbers that are such, where it has them.
fn op_is_held(op: &Op)
    ensures { FitsOp op.now }
{
    match op {
        Op::Get(key) | Op::Delete(key) => key_is_held(key),
        Op::Set(key, value) => {
            key_is_held(key);
            value_is_held(value);
        }
        Op::Add(map, key, number) => {
            map_is_held(*map);
            key_is_held(key);
            number_is_held(*number);
        }
        Op::ClearOf(map) | Op::ZeroOf(map) | Op::Read(map) => map_is_held(*map),
        Op::Cross(tick) => {
            let _held = *tick;
        }
        Op::Clear | Op::Zero | Op::ReadAll | Op::Check | Op::Stop | Op::Emit(_) => (),
    }
}

/// A step is as a program holds it.
pub(crate) fn step_is_held(step: &Step)
    ensures { FitsStep step.now }
{
    let _actor = step.actor;
    let _stamp = step.stamp;
    object_is_held(step.object);
    op_is_held(&step.op);
}
