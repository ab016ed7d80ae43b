// Marks of deeds, and deeds of marks.
ghost use Rattle.std.specs.Prelude.{◌≡◌, ℕ, ◌<◌, IsTrue, List, [], get_or, length, vec_len, vec_capacity, IfOk, IfSome};
ghost use Rattle.bt_core.specs.declared.item.Item.{Item as Sent};
ghost use Rattle.bt_core.specs.declared.step.ObjectId.TheVariants.{Shared, Cpu, Clock, Out};
ghost use Rattle.bt_core.specs.declared.value.Value.{Value as Part};
ghost use Rattle.step_list.specs.Deeds.{deed, deed_of, emitted, is_within, key_of, no_item, Extends, HasKey};

use crate::deed::{Deed, Mark, actor_of, object_of, reply_of};
use crate::keys::{keep_key, key_at};
use bt_core::item::Item;
use bt_core::key::Key;
use bt_core::map::MapId;
use bt_core::memory::Memory;
use bt_core::step::{ObjectId, Op, Reply};
use bt_core::value::Value;
use print_list::list::PrintList;
use std::alloc::Global;
use std::mem;

/// A copy of the deed that a mark tells, by the keys, the deeds that are kept whole and the printed items. [`Memory`] where there is no
/// room for it.
pub(crate) fn told(
    alloc: Global,
    keys: &[Key],
    whole: &[Deed],
    prints: &PrintList,
    mark: Mark,
) -> Result<Deed, Memory>
    ensures { IfOk result (λ deed. deed ≡ deed_of keys.now whole.now prints.now mark) }
{
    if let Mark::Whole(place) = mark {
        return match whole.get(place as usize) {
            Some(deed) => deed.copy(alloc),
            None => Ok(Deed {
                actor: 0,
                object: ObjectId::Out,
                op: Op::Stop,
                reply: Reply::Done,
            }),
        };
    }
    let op = op_told(alloc, keys, prints, &mark)?;
    Ok(Deed {
        actor: actor_of(&mark),
        object: object_of(&mark),
        op,
        reply: reply_of(&mark),
    })
}

/// The operation that a mark tells by itself, or a stop. [`Memory`] where there is no room for its key or its item.
fn op_told(alloc: Global, keys: &[Key], prints: &PrintList, mark: &Mark) -> Result<Op, Memory>
    ensures { IfOk result (λ op. op ≡ (deed_of keys.now [] prints.now mark.now).op) }
{
    match mark {
        Mark::GetInt { key, .. } => Ok(Op::Get(key_at(alloc, keys, *key)?)),
        Mark::SetInt { key, number, .. } => Ok(Op::Set(
            key_at(alloc, keys, *key)?,
            Value::Int(*number),
        )),
        Mark::Delete { key, .. } => Ok(Op::Delete(key_at(alloc, keys, *key)?)),
        Mark::Add {
            map,
            key,
            number,
            ..
        } => Ok(Op::Add(MapId(*map as u32), key_at(alloc, keys, *key)?, *number)),
        Mark::Check { .. } => Ok(Op::Check),
        Mark::Print { print, .. } => Ok(Op::Emit(print_at(alloc, prints, *print)?)),
        Mark::Whole(_) => Ok(Op::Stop),
    }
}

/// A copy of the printed item of a number. [`Memory`] where there is no room for it.
pub(crate) fn print_at(alloc: Global, prints: &PrintList, print: u32) -> Result<Item, Memory>
    ensures { IfOk result (λ item. item ≡ get_or prints.now print no_item) }
{
    match prints.get(alloc, print as usize)? {
        Some(item) => Ok(item),
        None => Ok(Item::Cut { line: 0 }),
    }
}

/// Keeps what a step did, and tells the mark by which it is found. There is room for a key and for a deed. What is kept of the operation
/// and of the reply is taken out of them.
#[inline(always)]
pub(crate) fn keep(
    keys: &mut Vec<Key>,
    slots: &mut Vec<u32>,
    whole: &mut Vec<Deed>,
    prints: &mut PrintList,
    actor: u32,
    object: ObjectId,
    op: &mut Op,
    reply: &mut Reply,
) -> Mark
    requires keys { vec_len keys.old < vec_capacity keys.old }
    requires whole { vec_len whole.old < vec_capacity whole.old }
    ensures keys { Extends keys.old.items keys.new.items }
    ensures whole { Extends whole.old.items whole.new.items }
    ensures prints { Extends prints.old prints.new }
    ensures within { IsTrue (is_within (length keys.new.items) (length whole.new.items) (length prints.new) result) }
    ensures deed { deed_of keys.new.items whole.new.items prints.new result ≡ deed actor object op.old reply.old }
{
    if keys.len() >= 0xffff_ffff || actor >= 256 {
        return keep_whole(whole, actor, object, op, reply);
    }
    match object {
        ObjectId::Shared { map, part } => keep_shared(
            keys, slots, whole, actor, map, part, op, reply,
        ),
        ObjectId::Cpu(owner) => keep_add(keys, slots, whole, actor, owner, op, reply),
        ObjectId::Clock => keep_check(whole, actor, op, reply),
        ObjectId::Out => keep_emit(whole, prints, actor, op, reply),
    }
}

/// Keeps what a step did at a part of a shared map.
fn keep_shared(
    keys: &mut Vec<Key>,
    slots: &mut Vec<u32>,
    whole: &mut Vec<Deed>,
    actor: u32,
    map: MapId,
    part: u32,
    op: &mut Op,
    reply: &mut Reply,
) -> Mark
    requires few { length keys.old.items < 0xffffffff }
    requires actor { actor < 256 }
    requires keys { vec_len keys.old < vec_capacity keys.old }
    requires whole { vec_len whole.old < vec_capacity whole.old }
    ensures keys { Extends keys.old.items keys.new.items }
    ensures whole { Extends whole.old.items whole.new.items }
    ensures within { (prints : ℕ) → IsTrue (is_within (length keys.new.items) (length whole.new.items) prints result) }
    ensures deed { (prints : List Sent) → deed_of keys.new.items whole.new.items prints result ≡ deed actor (Shared map part) op.old reply.old }
{
    if map.0 >= 256 || part >= 256 {
        return keep_whole(whole, actor, ObjectId::Shared { map, part }, op, reply);
    }
    match (&*op, &*reply) {
        (Op::Get(_), Reply::Value(Value::Int(number))) => Mark::GetInt {
            actor: actor as u8,
            map: map.0 as u8,
            part: part as u8,
            number: *number,
            key: keep_key_of(keys, slots, op),
        },
        (Op::Set(_, Value::Int(number)), Reply::Done) => Mark::SetInt {
            actor: actor as u8,
            map: map.0 as u8,
            part: part as u8,
            number: *number,
            key: keep_key_of(keys, slots, op),
        },
        (Op::Delete(_), Reply::Done) => Mark::Delete {
            actor: actor as u8,
            map: map.0 as u8,
            part: part as u8,
            key: keep_key_of(keys, slots, op),
        },
        _ => keep_whole(whole, actor, ObjectId::Shared { map, part }, op, reply),
    }
}

/// Keeps what a step did at the tables of an actor.
#[inline(always)]
fn keep_add(
    keys: &mut Vec<Key>,
    slots: &mut Vec<u32>,
    whole: &mut Vec<Deed>,
    actor: u32,
    owner: u32,
    op: &mut Op,
    reply: &mut Reply,
) -> Mark
    requires few { length keys.old.items < 0xffffffff }
    requires actor { actor < 256 }
    requires keys { vec_len keys.old < vec_capacity keys.old }
    requires whole { vec_len whole.old < vec_capacity whole.old }
    ensures keys { Extends keys.old.items keys.new.items }
    ensures whole { Extends whole.old.items whole.new.items }
    ensures within { (prints : ℕ) → IsTrue (is_within (length keys.new.items) (length whole.new.items) prints result) }
    ensures deed { (prints : List Sent) → deed_of keys.new.items whole.new.items prints result ≡ deed actor (Cpu owner) op.old reply.old }
{
    match (&*op, &*reply) {
        (Op::Add(map, _, number), Reply::Done) if map.0 < 256 && owner == actor => Mark::Add {
            actor: actor as u8,
            map: map.0 as u8,
            number: *number,
            key: keep_key_of(keys, slots, op),
        },
        _ => keep_whole(whole, actor, ObjectId::Cpu(owner), op, reply),
    }
}

/// Keeps the key of an operation that has one, and tells its number. There is room for it.
fn keep_key_of(keys: &mut Vec<Key>, slots: &mut Vec<u32>, op: &mut Op) -> u32
    requires op { HasKey op.old }
    requires few { length keys.old.items < 0xffffffff }
    requires keys { vec_len keys.old < vec_capacity keys.old }
    ensures kept { Extends keys.old.items keys.new.items }
    ensures within { result < length keys.new.items }
    ensures key { get_or keys.new.items result [] ≡ key_of op.old }
{
    match op {
        Op::Get(key) | Op::Set(key, _) | Op::Delete(key) | Op::Add(_, key, _) => keep_key(
            keys, slots, key,
        ),
        _ => unreachable!(),
    }
}

/// Keeps what a step did at the clock.
fn keep_check(whole: &mut Vec<Deed>, actor: u32, op: &mut Op, reply: &mut Reply) -> Mark
    requires actor { actor < 256 }
    requires whole { vec_len whole.old < vec_capacity whole.old }
    ensures whole { Extends whole.old.items whole.new.items }
    ensures within { (keys prints : ℕ) → IsTrue (is_within keys (length whole.new.items) prints result) }
    ensures deed { (keys : List (List Part)) (prints : List Sent) → deed_of keys whole.new.items prints result ≡ deed actor Clock op.old reply.old }
{
    match (&*op, &*reply) {
        (Op::Check, Reply::Stopped(stopped)) => Mark::Check {
            actor: actor as u8,
            stopped: *stopped,
        },
        _ => keep_whole(whole, actor, ObjectId::Clock, op, reply),
    }
}

/// Keeps what a step did at the output.
fn keep_emit(
    whole: &mut Vec<Deed>,
    prints: &mut PrintList,
    actor: u32,
    op: &mut Op,
    reply: &mut Reply,
) -> Mark
    requires actor { actor < 256 }
    requires whole { vec_len whole.old < vec_capacity whole.old }
    ensures whole { Extends whole.old.items whole.new.items }
    ensures prints { Extends prints.old prints.new }
    ensures within { (keys : ℕ) → IsTrue (is_within keys (length whole.new.items) (length prints.new) result) }
    ensures deed { (keys : List (List Part)) → deed_of keys whole.new.items prints.new result ≡ deed actor Out op.old reply.old }
{
    match keep_print(prints, op, reply) {
        Some(print) => Mark::Print {
            actor: actor as u8,
            print,
        },
        None => keep_whole(whole, actor, ObjectId::Out, op, reply),
    }
}

/// Keeps what a `printf` call emitted, and tells its number. `None` where another operation or reply is told, or where there is no room for it.
fn keep_print(prints: &mut PrintList, op: &Op, reply: &Reply) -> Option<u32>
    ensures prints { Extends prints.old prints.new }
    ensures kept { IfSome result (λ print. (print < length prints.new)
        × ((actor : ℕ) → deed actor Out op.now reply.now ≡ emitted actor (get_or prints.new print no_item))) }
{
    if prints.len() >= 0xffff_ffff {
        return None;
    }
    let Reply::Done = reply else {
        return None;
    };
    let Op::Emit(item) = op else {
        return None;
    };
    match item {
        Item::Printf { format, values } => {
            let print = prints.len() as u32;
            match prints.push(*format, values.as_slice()) {
                Ok(()) => Some(print),
                Err(_) => None,
            }
        }
        _ => None,
    }
}

/// Keeps a deed whole, behind all others, and takes its operation and its reply out. There is room for it.
fn keep_whole(
    whole: &mut Vec<Deed>,
    actor: u32,
    object: ObjectId,
    op: &mut Op,
    reply: &mut Reply,
) -> Mark
    requires whole { vec_len whole.old < vec_capacity whole.old }
    ensures whole { Extends whole.old.items whole.new.items }
    ensures within { (keys prints : ℕ) → IsTrue (is_within keys (length whole.new.items) prints result) }
    ensures deed { (keys : List (List Part)) (prints : List Sent) → deed_of keys whole.new.items prints result ≡ deed actor object op.old reply.old }
{
    let place = whole.len() as u64;
    whole.push_reserved(Deed {
        actor,
        object,
        op: mem::replace(op, Op::Stop),
        reply: mem::replace(reply, Reply::Done),
    });
    Mark::Whole(place)
}
