// What a step did, in 16 bytes where it can be told so.
ghost use Rattle.std.specs.Prelude.{◌≡◌, List, [], IfOk, MatchOption};
ghost use Rattle.bt_core.specs.declared.item.Item.{Item as Sent};
ghost use Rattle.bt_core.specs.declared.value.Value.{Value as Part};
ghost use Rattle.step_list.specs.declared.deed.Deed.{Deed as OneDeed};
ghost use Rattle.step_list.specs.declared.deed.Mark.TheVariants.{Whole};
ghost use Rattle.step_list.specs.Deeds.{deed_of, reply_told};

use bt_core::map::MapId;
use bt_core::memory::{Memory, TryCopy};
use bt_core::step::{ObjectId, Op, Reply};
use bt_core::value::Value;
use std::alloc::Global;

/// What a step did: all of the step but its stamp.
#[derive(Drop)]
pub struct Deed {
    pub actor: u32,
    pub object: ObjectId,
    pub op: Op,
    pub reply: Reply,
}

/// What a step did, in 16 bytes. Keys are told by their numbers, counted from 0 in the order in which they were kept; an actor, a
/// map and a part by their numbers, where these are below 256.
///
/// `GetInt`, `SetInt` and `Delete` are made at a part of a shared map: a get that a number was replied to, a set of a number, a delete.
/// `Add` is made at the actor's own tables, and `Check` at the clock, with its reply. `Print` emits what a `printf` call prints, by its
/// number in the list of these, and `Whole` is the number of a deed that is kept whole, both counted from 0; the second is for all that
/// the others do not tell.
#[derive(Clone, Copy)]
pub enum Mark {
    GetInt {
        actor: u8,
        map: u8,
        part: u8,
        key: u32,
        number: i64,
    },
    SetInt {
        actor: u8,
        map: u8,
        part: u8,
        key: u32,
        number: i64,
    },
    Delete {
        actor: u8,
        map: u8,
        part: u8,
        key: u32,
    },
    Add {
        actor: u8,
        map: u8,
        key: u32,
        number: i64,
    },
    Check {
        actor: u8,
        stopped: bool,
    },
    Print {
        actor: u8,
        print: u32,
    },
    Whole(u64),
}

impl Deed {
    /// An equal deed, or [`Memory`] where there is no room for it.
    pub fn copy(&self, alloc: Global) -> Result<Deed, Memory>
        ensures { IfOk result (λ copied. copied ≡ self.now) }
    {
        let op = copy_op(alloc, &self.op)?;
        let reply = self.reply.copy(alloc)?;
        Ok(Deed {
            actor: self.actor,
            object: self.object,
            op,
            reply,
        })
    }
}

/// An equal operation, or [`Memory`] where there is no room for it.
pub(crate) fn copy_op(alloc: Global, op: &Op) -> Result<Op, Memory>
    ensures { IfOk result (λ copied. copied ≡ op.now) }
{
    match op {
        Op::Get(key) => Ok(Op::Get(key.try_copy(alloc)?)),
        Op::Set(key, value) => Ok(Op::Set(key.try_copy(alloc)?, value.copy())),
        Op::Delete(key) => Ok(Op::Delete(key.try_copy(alloc)?)),
        Op::Clear => Ok(Op::Clear),
        Op::Zero => Ok(Op::Zero),
        Op::ReadAll => Ok(Op::ReadAll),
        Op::Add(map, key, number) => Ok(Op::Add(*map, key.try_copy(alloc)?, *number)),
        Op::ClearOf(map) => Ok(Op::ClearOf(*map)),
        Op::ZeroOf(map) => Ok(Op::ZeroOf(*map)),
        Op::Read(map) => Ok(Op::Read(*map)),
        Op::Cross(count) => Ok(Op::Cross(*count)),
        Op::Check => Ok(Op::Check),
        Op::Stop => Ok(Op::Stop),
        Op::Emit(item) => Ok(Op::Emit(item.try_copy(alloc)?)),
    }
}

/// Where the deed is kept whole. A mark of no such deed tells the reply by itself.
pub(crate) fn place_of(mark: &Mark) -> Option<u64>
    ensures { MatchOption result
        ((keys : List (List Part)) (whole : List OneDeed) (prints : List Sent) → (deed_of keys whole prints mark.now).reply ≡ reply_told mark.now)
        (λ place. mark.now ≡ Whole place) }
{
    match mark {
        Mark::Whole(place) => Some(*place),
        Mark::GetInt { .. }
        | Mark::SetInt { .. }
        | Mark::Delete { .. }
        | Mark::Add { .. }
        | Mark::Check { .. }
        | Mark::Print { .. } => None,
    }
}

/// The reply that a mark tells by itself, or `Done`.
pub(crate) fn reply_of(mark: &Mark) -> Reply
    ensures { result ≡ reply_told mark.now }
{
    match mark {
        Mark::GetInt { number, .. } => Reply::Value(Value::Int(*number)),
        Mark::Check { stopped, .. } => Reply::Stopped(*stopped),
        Mark::SetInt { .. }
        | Mark::Delete { .. }
        | Mark::Add { .. }
        | Mark::Print { .. }
        | Mark::Whole(_) => Reply::Done,
    }
}

/// The actor that a mark tells by itself, or 0.
pub(crate) fn actor_of(mark: &Mark) -> u32
    ensures { result ≡ (deed_of [] [] [] mark.now).actor }
{
    match mark {
        Mark::GetInt { actor, .. }
        | Mark::SetInt { actor, .. }
        | Mark::Delete { actor, .. }
        | Mark::Add { actor, .. }
        | Mark::Check { actor, .. }
        | Mark::Print { actor, .. } => *actor as u32,
        Mark::Whole(_) => 0,
    }
}

/// The object that a mark tells by itself, or the output.
pub(crate) fn object_of(mark: &Mark) -> ObjectId
    ensures { result ≡ (deed_of [] [] [] mark.now).object }
{
    match mark {
        Mark::GetInt { map, part, .. }
        | Mark::SetInt { map, part, .. }
        | Mark::Delete { map, part, .. } => ObjectId::Shared {
            map: MapId(*map as u32),
            part: *part as u32,
        },
        Mark::Add { actor, .. } => ObjectId::Cpu(*actor as u32),
        Mark::Check { .. } => ObjectId::Clock,
        Mark::Print { .. } | Mark::Whole(_) => ObjectId::Out,
    }
}
