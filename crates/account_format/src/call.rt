// Operations at the front of the bytes, by their kinds.
ghost use Rattle.std.specs.Prelude.{◌≡◌, IfOk};
ghost use Rattle.std.specs.Option.{option_map};
ghost use Rattle.account_format.specs.Scopes.{setting_in};
ghost use Rattle.account_format.specs.Reading.{get_at, delete_at, set_at, sweep_at, add_at, read_at, clear_of_at, zero_of_at, cross_at, call_of_kind};

use crate::kind::Kind;
use crate::number::{u32_at, u64_at};
use crate::scope::Scope;
use crate::spot::{keyed_at, part_at, table_at, table_map_at};
use crate::value::{key_at, value_at};
use bt_core::encoding::part_of;
use bt_core::item::Item;
use bt_core::map::MapDecl;
use bt_core::memory::Memory;
use bt_core::step::{ObjectId, Op};
use std::alloc::Global;

/// An operation on an object, and the bytes after it.
pub(crate) type Asked<'b> = Option<((ObjectId, Op), &'b [u8])>;

#[tactic(auto, unfolding(crate::specs::Reading::get_at))]
fn get_at<'b>(alloc: Global, maps: &[MapDecl], bytes: &'b [u8]) -> Result<Asked<'b>, Memory>
    ensures { IfOk result (λ read. option_map (λ call. (call.0, call.1.now)) read ≡ get_at maps.now bytes.now) }
{
    let Some(((map, (_, key)), rest)) = keyed_at(alloc, maps, bytes)? else {
        return Ok(None);
    };
    let part = part_of(&key);
    Ok(Some(((ObjectId::Shared { map, part }, Op::Get(key)), rest)))
}

#[tactic(auto, unfolding(crate::specs::Reading::delete_at))]
fn delete_at<'b>(alloc: Global, maps: &[MapDecl], bytes: &'b [u8]) -> Result<Asked<'b>, Memory>
    ensures { IfOk result (λ read. option_map (λ call. (call.0, call.1.now)) read ≡ delete_at maps.now bytes.now) }
{
    let Some(((map, (_, key)), rest)) = keyed_at(alloc, maps, bytes)? else {
        return Ok(None);
    };
    let part = part_of(&key);
    Ok(Some(((ObjectId::Shared { map, part }, Op::Delete(key)), rest)))
}

#[tactic(auto, unfolding(crate::specs::Reading::set_at))]
fn set_at<'b>(alloc: Global, maps: &[MapDecl], bytes: &'b [u8]) -> Result<Asked<'b>, Memory>
    ensures { IfOk result (λ read. option_map (λ call. (call.0, call.1.now)) read ≡ set_at maps.now bytes.now) }
{
    let Some(((map, (shape, key)), rest)) = keyed_at(alloc, maps, bytes)? else {
        return Ok(None);
    };
    let Some((value, rest)) = value_at(shape, rest) else {
        return Ok(None);
    };
    let part = part_of(&key);
    Ok(Some(((ObjectId::Shared { map, part }, Op::Set(key, value)), rest)))
}

/// An operation on a part of a shared map.
#[tactic(auto, unfolding(crate::specs::Reading::sweep_at))]
fn sweep_at<'b>(maps: &[MapDecl], op: Op, bytes: &'b [u8]) -> Asked<'b>
    ensures { option_map (λ call. (call.0, call.1.now)) result ≡ sweep_at maps.now op bytes.now }
{
    let Some(((map, part), rest)) = part_at(maps, bytes) else {
        return None;
    };
    Some(((ObjectId::Shared { map, part }, op), rest))
}

#[tactic(auto, unfolding(crate::specs::Reading::add_at))]
fn add_at<'b>(
    alloc: Global,
    maps: &[MapDecl],
    actor: u32,
    bytes: &'b [u8],
) -> Result<Asked<'b>, Memory>
    ensures { IfOk result (λ read. option_map (λ call. (call.0, call.1.now)) read ≡ add_at maps.now actor bytes.now) }
{
    let Some(((map, decl), rest)) = table_map_at(maps, bytes) else {
        return Ok(None);
    };
    let Some((key, rest)) = key_at(alloc, decl.key_shape.as_slice(), rest)? else {
        return Ok(None);
    };
    let Some((number, rest)) = u64_at(rest) else {
        return Ok(None);
    };
    Ok(Some((
        (
            ObjectId::Cpu(actor),
            Op::Add(map, key, number.cast_signed()),
        ),
        rest,
    )))
}

#[tactic(auto, unfolding(crate::specs::Reading::read_at))]
fn read_at<'b>(maps: &[MapDecl], actors: u32, bytes: &'b [u8]) -> Asked<'b>
    ensures { option_map (λ call. (call.0, call.1.now)) result ≡ read_at maps.now actors bytes.now }
{
    let Some(((map, table), rest)) = table_at(maps, actors, bytes) else {
        return None;
    };
    Some(((ObjectId::Cpu(table), Op::Read(map)), rest))
}

#[tactic(auto, unfolding(crate::specs::Reading::clear_of_at))]
fn clear_of_at<'b>(maps: &[MapDecl], actors: u32, bytes: &'b [u8]) -> Asked<'b>
    ensures { option_map (λ call. (call.0, call.1.now)) result ≡ clear_of_at maps.now actors bytes.now }
{
    let Some(((map, table), rest)) = table_at(maps, actors, bytes) else {
        return None;
    };
    Some(((ObjectId::Cpu(table), Op::ClearOf(map)), rest))
}

#[tactic(auto, unfolding(crate::specs::Reading::zero_of_at))]
fn zero_of_at<'b>(maps: &[MapDecl], actors: u32, bytes: &'b [u8]) -> Asked<'b>
    ensures { option_map (λ call. (call.0, call.1.now)) result ≡ zero_of_at maps.now actors bytes.now }
{
    let Some(((map, table), rest)) = table_at(maps, actors, bytes) else {
        return None;
    };
    Some(((ObjectId::Cpu(table), Op::ZeroOf(map)), rest))
}

#[tactic(auto, unfolding(crate::specs::Reading::cross_at))]
fn cross_at<'b>(ticks: u32, bytes: &'b [u8]) -> Asked<'b>
    ensures { option_map (λ call. (call.0, call.1.now)) result ≡ cross_at ticks bytes.now }
{
    let Some((tick, rest)) = u32_at(bytes) else {
        return None;
    };
    if tick < ticks {
        Some(((ObjectId::Clock, Op::Cross(tick)), rest))
    } else {
        None
    }
}

/// An operation of this kind of an actor. [`Memory`] where there is no room for its key.
pub(crate) fn call_at<'b>(
    alloc: Global,
    scope: &Scope<'_>,
    actor: u32,
    kind: Kind,
    bytes: &'b [u8],
) -> Result<Asked<'b>, Memory>
    ensures { IfOk result (λ read. option_map (λ call. (call.0, call.1.now)) read ≡ call_of_kind (setting_in scope.now) actor kind bytes.now) }
{
    match kind {
        Kind::Get => get_at(alloc, scope.maps, bytes),
        Kind::Set => set_at(alloc, scope.maps, bytes),
        Kind::Delete => delete_at(alloc, scope.maps, bytes),
        Kind::ReadAll => Ok(sweep_at(scope.maps, Op::ReadAll, bytes)),
        Kind::Clear => Ok(sweep_at(scope.maps, Op::Clear, bytes)),
        Kind::Zero => Ok(sweep_at(scope.maps, Op::Zero, bytes)),
        Kind::Add => add_at(alloc, scope.maps, actor, bytes),
        Kind::Read => Ok(read_at(scope.maps, scope.actors, bytes)),
        Kind::ClearOf => Ok(clear_of_at(scope.maps, scope.actors, bytes)),
        Kind::ZeroOf => Ok(zero_of_at(scope.maps, scope.actors, bytes)),
        Kind::Cross => Ok(cross_at(scope.ticks, bytes)),
        Kind::Check => Ok(Some(((ObjectId::Clock, Op::Check), bytes))),
        Kind::Stop => Ok(Some(((ObjectId::Clock, Op::Stop), bytes))),
        Kind::Emit => Ok(Some(((ObjectId::Out, Op::Emit(Item::Cut { line: 0 })), bytes))),
    }
}
