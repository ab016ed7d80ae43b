// Writing an account.
ghost use Rattle.std.specs.Prelude.{◌≡◌, ◌<◌, ◌^◌, ◌++◌, length, IfOk, OnOk};
ghost use Rattle.std.specs.List.{AllByRecursion};
ghost use Rattle.bt_core.specs.declared.step.ObjectId.TheVariants as objects;
ghost use Rattle.account_format.specs.Entries.{call_bytes, entry_bytes, FitsStep};
ghost use Rattle.account_format.specs.Accounts.{entries_bytes, account_bytes};

use crate::held::step_is_held;
use crate::pushing::{
    push_byte, push_i64, push_keyed, push_numbered, push_u32, push_u64, push_value,
};
use crate::reading::MAGIC;
use bt_core::map::MapId;
use bt_core::memory::Memory;
use bt_core::step::{ObjectId, Op, Step};
use std::alloc::{AllocError, Global};
use weave::woven::Woven;

/// The account of these steps, in their order, and this text. It has the bytes of all steps: of one whose operation is not its object's
/// own, no more than the actor and the stamp.
///
/// The steps stay where they are. Beside the bytes it takes what [`Woven::in_order`] takes, and room for one step.
///
/// Its only error is [`Memory`].
pub fn write_account(alloc: Global, steps: &Woven, text: &[u8]) -> Result<Vec<u8>, Memory>
    // The bytes are the account.
    ensures bytes { IfOk result (λ bytes. bytes.items ≡ account_bytes steps.now text.now) }
    // Each step is as a program holds it, so that none has numbers whose bytes are those of smaller ones.
    ensures fits { OnOk result (AllByRecursion FitsStep steps.now) }
    // 64 bits count the steps, and the text.
    ensures few { OnOk result (length steps.now < 2 ^ 64) }
    ensures short { OnOk result (length text.now < 2 ^ 64) }
{
    let mut bytes = Vec::new(alloc);
    bytes.extend_from_slice(MAGIC)?;
    push_u64(&mut bytes, steps.len() as u64)?;
    push_entries(alloc, &mut bytes, steps)?;
    push_u64(&mut bytes, text.len() as u64)?;
    bytes.extend_from_slice(text)?;
    Ok(bytes)
}

/// The entries of steps, in their order.
fn push_entries(alloc: Global, bytes: &mut Vec<u8>, steps: &Woven) -> Result<(), Memory>
    ensures bytes { OnOk result (bytes.new.items ≡ bytes.old.items ++ entries_bytes steps.now) }
    ensures fits { OnOk result (AllByRecursion FitsStep steps.now) }
{
    let ordered = steps.in_order(alloc)?;
    let mut left = ordered.steps();
    while let Some(step) = left.next(alloc)? {
        push_entry(bytes, &step)?;
    }
    Ok(())
}

fn push_entry(bytes: &mut Vec<u8>, step: &Step) -> Result<(), AllocError>
    ensures bytes { OnOk result (bytes.new.items ≡ bytes.old.items ++ entry_bytes step.now) }
    ensures fits { FitsStep step.now }
{
    step_is_held(step);
    push_u32(bytes, step.actor)?;
    push_u64(bytes, step.stamp)?;
    push_call(bytes, step.object, &step.op)
}

/// An operation on an object.
fn push_call(bytes: &mut Vec<u8>, object: ObjectId, op: &Op) -> Result<(), AllocError>
    ensures { OnOk result (bytes.new.items ≡ bytes.old.items ++ call_bytes object op.now) }
{
    match object {
        ObjectId::Shared { map, part } => push_shared(bytes, map, part, op),
        ObjectId::Cpu(table) => push_table(bytes, table, op),
        ObjectId::Clock => push_clock(bytes, op),
        ObjectId::Out => push_out(bytes, op),
    }
}

/// An operation on a part of a shared map.
fn push_shared(bytes: &mut Vec<u8>, map: MapId, part: u32, op: &Op) -> Result<(), AllocError>
    ensures { OnOk result (bytes.new.items ≡ bytes.old.items ++ call_bytes (objects.Shared map part) op.now) }
{
    match op {
        Op::Get(key) => push_keyed(bytes, 1, map, key),
        Op::Set(key, value) => {
            push_keyed(bytes, 2, map, key)?;
            push_value(bytes, value)
        }
        Op::Delete(key) => push_keyed(bytes, 3, map, key),
        Op::ReadAll => push_numbered(bytes, 4, map, part),
        Op::Clear => push_numbered(bytes, 5, map, part),
        Op::Zero => push_numbered(bytes, 6, map, part),
        Op::Add(_, _, _)
        | Op::ClearOf(_)
        | Op::ZeroOf(_)
        | Op::Read(_)
        | Op::Cross(_)
        | Op::Check
        | Op::Stop
        | Op::Emit(_) => Ok(()),
    }
}

/// An operation on the tables of an actor.
fn push_table(bytes: &mut Vec<u8>, table: u32, op: &Op) -> Result<(), AllocError>
    ensures { OnOk result (bytes.new.items ≡ bytes.old.items ++ call_bytes (objects.Cpu table) op.now) }
{
    match op {
        Op::Add(map, key, number) => {
            push_keyed(bytes, 7, *map, key)?;
            push_i64(bytes, *number)
        }
        Op::Read(map) => push_numbered(bytes, 8, *map, table),
        Op::ClearOf(map) => push_numbered(bytes, 9, *map, table),
        Op::ZeroOf(map) => push_numbered(bytes, 10, *map, table),
        Op::Get(_)
        | Op::Set(_, _)
        | Op::Delete(_)
        | Op::ReadAll
        | Op::Clear
        | Op::Zero
        | Op::Cross(_)
        | Op::Check
        | Op::Stop
        | Op::Emit(_) => Ok(()),
    }
}

/// An operation on the clock.
fn push_clock(bytes: &mut Vec<u8>, op: &Op) -> Result<(), AllocError>
    ensures { OnOk result (bytes.new.items ≡ bytes.old.items ++ call_bytes objects.Clock op.now) }
{
    match op {
        Op::Cross(tick) => {
            bytes.push(11)?;
            push_u32(bytes, *tick)
        }
        Op::Check => push_byte(bytes, 12),
        Op::Stop => push_byte(bytes, 13),
        Op::Get(_)
        | Op::Set(_, _)
        | Op::Delete(_)
        | Op::ReadAll
        | Op::Clear
        | Op::Zero
        | Op::Add(_, _, _)
        | Op::ClearOf(_)
        | Op::ZeroOf(_)
        | Op::Read(_)
        | Op::Emit(_) => Ok(()),
    }
}

/// An operation on the output.
fn push_out(bytes: &mut Vec<u8>, op: &Op) -> Result<(), AllocError>
    ensures { OnOk result (bytes.new.items ≡ bytes.old.items ++ call_bytes objects.Out op.now) }
{
    match op {
        Op::Emit(_) => push_byte(bytes, 14),
        Op::Get(_)
        | Op::Set(_, _)
        | Op::Delete(_)
        | Op::ReadAll
        | Op::Clear
        | Op::Zero
        | Op::Add(_, _, _)
        | Op::ClearOf(_)
        | Op::ZeroOf(_)
        | Op::Read(_)
        | Op::Cross(_)
        | Op::Check
        | Op::Stop => Ok(()),
    }
}
