// A port that answers from a written list.
ghost use Rattle.std.specs.Prelude.{◌≡◌, ◌++◌, ◌∷◌, [], IfOk, OnOk, OnErr};
ghost use Rattle.bt_core.specs.Ports.{IsReplyOf};

use crate::moments::Moment;
use crate::replies::is_reply_of;
use bt_core::items::Items;
use bt_core::map::MapDecl;
use bt_core::memory::{Memory, TryCopy};
use bt_core::port::Port;
use bt_core::step::{ObjectId, Op, Reply, Step};
use std::alloc::{AllocError, Global};
use std::mem;

/// Keeps the steps that are made. A `Get`, a `ReadAll` and a `Read` get the next reply of the list, and all other operations `Done`.
#[derive(Drop)]
pub struct Written {
    pub actor: u32,
    pub actors: u32,
    pub maps: Items<MapDecl>,
    pub replies: Items<Reply>,
    pub taken: usize,
    pub steps: Items<Step>,
}

fn asks(op: &Op) -> bool {
    match op {
        Op::Get(_) => true,
        Op::ReadAll => true,
        Op::Read(_) => true,
        _ => false,
    }
}

// Where the list has run out, or its next reply is of another kind, there is no answer.
fn answer(
    alloc: Global,
    maps: &[MapDecl],
    object: ObjectId,
    op: &Op,
    next: Option<&Reply>,
) -> Result<Reply, Memory>
    ensures { IfOk result (λ reply. IsReplyOf maps.now object op.now reply) }
{
    let reply = match (asks(op), next) {
        (true, Some(reply)) => reply.copy(alloc)?,
        _ => Reply::Done,
    };
    if is_reply_of(maps, object, op, &reply) {
        Ok(reply)
    } else {
        Err(AllocError.into())
    }
}

// Adds a step of an actor at the end. Its operation is taken out; where there is no memory for the step, the operation and the list are
// as before.
fn keep_step(
    steps: &mut Items<Step>,
    actor: u32,
    object: ObjectId,
    op: &mut Op,
    reply: Reply,
) -> Result<(), Memory>
    ensures ok { OnOk result (steps.new ≡ steps.old ++ record { actor = actor; object = object; stamp = 0; op = op.old; reply = reply } ∷ []) }
    ensures err { OnErr result (steps.new ≡ steps.old) }
    ensures whole { OnErr result (op.new ≡ op.old) }
{
    let place = steps.len();
    let room = Step {
        actor,
        object,
        stamp: 0,
        op: Op::Stop,
        reply: Reply::Done,
    };
    steps.push(room)?;
    let step = Step {
        actor,
        object,
        stamp: 0,
        op: mem::replace(op, Op::Stop),
        reply,
    };
    steps.set(place, step);
    Ok(())
}

impl Port for Written {
    ghost use Rattle.std.specs.Prelude.{List};

    type Home = ();

    ghost steps = { λ s. s.steps };

    ghost fixed = { λ s. record { setting = record { actor = s.actor; actors = s.actors; ticks = 0; maps = s.maps }; home = tt } };

    fn step(&mut self, alloc: Global, object: ObjectId, op: &mut Op) -> Result<(), Memory> {
        let next = self.replies.get(self.taken);
        let reply = answer(alloc, self.maps.as_slice(), object, op, next)?;
        let taken = if asks(op) { 1 } else { 0 };
        keep_step(&mut self.steps, self.actor, object, op, reply)?;
        self.taken = self.taken.saturating_add(taken);
        Ok(())
    }

    fn last(&self) -> &Reply {
        let steps = self.steps.as_slice();
        &steps[steps.len() - 1].reply
    }
}

/// A port over these maps for the actor of a moment, with these replies and no step.
///
/// # Errors
///
/// [`Memory`] is the one error.
pub fn port_of(
    alloc: Global,
    maps: &Items<MapDecl>,
    moment: Moment,
    replies: Items<Reply>,
) -> Result<Written, Memory>
    ensures maps { IfOk result (λ port. port.maps ≡ maps.now) }
    ensures actor { IfOk result (λ port. port.actor ≡ moment.actor) }
    ensures actors { IfOk result (λ port. port.actors ≡ moment.actors) }
{
    let maps = maps.try_copy(alloc)?;
    Ok(Written {
        actor: moment.actor,
        actors: moment.actors,
        maps,
        replies,
        taken: 0,
        steps: Items::new(alloc),
    })
}
