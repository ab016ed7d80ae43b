// A port that follows a written list of steps.
ghost use Rattle.std.specs.Prelude.{◌≡◌, ◌<◌, ◌≤◌, ◌↔◌, ◌++◌, ◌∷◌, [], length, take, drop, slice_index_or, slice_set, suc, ℕ, IsTrue, IfOk, OnOk, OnErr};
ghost use Rattle.std.specs.List.{AllByRecursion};
ghost use Rattle.bt_core.specs.declared.step.Step.{Step as MadeStep};
ghost use Rattle.bt_core.specs.Interaction.{MakesStep, last_reply, call_of};
ghost use Rattle.bt_core.specs.Ports.{CanStep, IsReplyOf};
ghost use Rattle.bt_core.specs.Steps.{of_actor};
ghost use Rattle.step_entries.specs.Blank.{blank_op, blank_call};
ghost use Rattle.account_follow.specs.Following.{blanks_in, front_in, IsFollowing, steps_in, seen_of, setting_of, value_where_empty, with_op};

use bt_core::items::Items;
use bt_core::map::{MapDecl, MapKind};
use bt_core::memory::Memory;
use bt_core::port::Port;
use bt_core::step::{ObjectId, Op, Reply, Step};
use bt_core::text::Str64;
use bt_core::value::Value;
use std::alloc::Global;
use std::marker::Model;
use std::mem;
use step_entries::blank::is_same_but_item;

/// From where and how far a list was followed for an actor, and the steps that were made off it.
#[derive(Drop)]
pub struct Walk {
    pub actor: u32,
    pub actors: u32,
    pub ticks: u32,
    pub maps: Items<MapDecl>,
    pub list: Items<Step>,
    pub from: usize,
    pub at: usize,
    pub strays: Items<Step>,
}

/// How far a list was followed for an actor, and whether all its steps were made on the list.
#[derive(Clone, Copy, Drop)]
pub struct Reached {
    pub at: usize,
    pub on_list: bool,
}

/// A list with the items of an actor, and how far it was followed.
#[derive(Drop)]
pub struct Trail {
    pub list: Items<Step>,
    pub reached: Reached,
}

/// The place of the actor's next step, or the length of the list.
fn skip_others(list: &[Step], from: usize, actor: u32) -> usize
    requires { from ≤ length list.now }
    ensures within { (from ≤ result) × (result ≤ length list.now) }
    ensures same { of_actor actor (take result list.now) ≡ of_actor actor (take from list.now) }
    ensures rest { of_actor actor (drop result list.now) ≡ of_actor actor (drop from list.now) }
    ensures own { (d : MadeStep) → result < length list.now → (slice_index_or list.now result d).actor ≡ actor }
{
    let mut at = from;
    while at < list.len() && list[at].actor != actor {
        at += 1;
    }
    at
}

/// A reply that says nothing, of the operation's kind.
fn empty_reply(alloc: Global, walk: &Walk, object: ObjectId, op: &Op) -> Reply
    requires { CanStep (setting_of walk.now) object op.now }
    ensures { IsReplyOf walk.now.maps object op.now result }
{
    match op {
        Op::Get(_) => empty_value(walk.maps.as_slice(), object),
        Op::ReadAll => Reply::Pairs(Items::new(alloc)),
        Op::Read(_) => Reply::Aggs(Items::new(alloc)),
        Op::Cross(_) => Reply::Last(false),
        Op::Check => Reply::Stopped(false),
        _ => Reply::Done,
    }
}

/// The value of a key that does not live.
fn empty_value(maps: &[MapDecl], object: ObjectId) -> Reply
    ensures { result ≡ value_where_empty maps.now object }
{
    match object {
        ObjectId::Shared { map, part: _ } => match maps.get(map.0 as usize) {
            Some(decl) => match decl.kind {
                MapKind::Strs => Reply::Value(Value::Str(Str64::of(&[]))),
                _ => Reply::Value(Value::Int(0)),
            },
            None => Reply::Done,
        },
        _ => Reply::Done,
    }
}

/// One step of the actor: the list's next one, whose item it gets, or else one off the list. The operation is taken out.
///
/// After [`Memory`] no step was made, and the operation is as it was.
fn take_step(alloc: Global, walk: &mut Walk, object: ObjectId, op: &mut Op) -> Result<(), Memory>
    requires follows { IsFollowing (seen_of walk.old) }
    requires can { CanStep (setting_of walk.old) object op.old }
    ensures follows { IsFollowing (seen_of walk.new) }
    ensures setting { setting_of walk.new ≡ setting_of walk.old }
    ensures from { walk.new.from ≡ walk.old.from }
    ensures front { front_in (seen_of walk.new) ≡ front_in (seen_of walk.old) }
    ensures blanks { blanks_in (seen_of walk.new) ≡ blanks_in (seen_of walk.old) }
    ensures made { OnOk result (MakesStep (steps_in (seen_of walk.old)) (steps_in (seen_of walk.new)) walk.old.actor object op.old) }
    ensures replied { OnOk result (IsReplyOf walk.old.maps object op.old (last_reply (steps_in (seen_of walk.new)))) }
    ensures none { OnErr result (steps_in (seen_of walk.new) ≡ steps_in (seen_of walk.old)) }
    ensures whole { OnErr result (op.new ≡ op.old) }
{
    if walk.strays.is_empty() {
        let at = skip_others(walk.list.as_slice(), walk.at, walk.actor);
        if at < walk.list.len() {
            if is_next(&walk.list.as_slice()[at], object, op) {
                set_op(&mut walk.list, at, op);
                walk.at = at + 1;
                return Ok(());
            }
        }
    }
    let reply = empty_reply(alloc, walk, object, op);
    let step = Step {
        actor: walk.actor,
        object,
        stamp: 0,
        op: Op::Stop,
        reply,
    };
    push_with(&mut walk.strays, step, op)
}

/// Whether a step has this object, and this operation but for its item.
fn is_next(step: &Step, object: ObjectId, op: &Op) -> bool
    ensures { IsTrue result ↔ (blank_call (call_of step.now) ≡ blank_call (record { object = object; op = op.now })) }
{
    step.object == object && is_same_but_item(&step.op, op)
}

/// Puts an operation in the place of a step's, and leaves nothing to know of it behind the reference.
fn set_op(list: &mut Items<Step>, at: usize, op: &mut Op)
    requires { at < length list.old }
    ensures { (d : MadeStep) → list.new ≡ slice_set list.old at (with_op op.old (slice_index_or list.old at d)) }
{
    let kept = mem::replace(op, Op::Stop);
    let step = &mut list.as_mut_slice()[at];
    step.op = kept;
}

/// Adds a step at the end, with an operation in the place of its own. After [`Memory`] the list and the operation are as before.
fn push_with(list: &mut Items<Step>, step: Step, op: &mut Op) -> Result<(), Memory>
    ensures ok { OnOk result (list.new ≡ list.old ++ with_op op.old step ∷ []) }
    ensures err { OnErr result (list.new ≡ list.old) }
    ensures whole { OnErr result (op.new ≡ op.old) }
{
    let at = list.len();
    list.push(step)?;
    set_op(list, at, op);
    Ok(())
}

/// The reply of the last step.
fn last_of(walk: &Walk) -> &Reply
    requires follows { IsFollowing (seen_of walk.now) }
    requires some { 0 < length (steps_in (seen_of walk.now)) }
    ensures { result.now ≡ last_reply (steps_in (seen_of walk.now)) }
{
    if walk.strays.is_empty() {
        &walk.list.as_slice()[walk.at - 1].reply
    } else {
        &walk.strays.as_slice()[walk.strays.len() - 1].reply
    }
}

/// Follows a list of steps for one actor. A step that is the list's next one of the actor gets the list's reply; the first that is not,
/// and each after it, gets one that says nothing.
#[derive(Drop)]
pub struct Follower {
    walk: Walk,
}

impl Model for Follower {
    ghost use Rattle.account_follow.specs.Following.{Seen, seen_of, IsFollowing as IsFollow};

    ghost Value = { Seen };

    ghost view = { λ p. seen_of p.walk };

    ghost invariant = { λ p. IsFollow (seen_of p.walk) };
}

impl Port for Follower {
    type Home = (usize, Items<Step>, Items<Step>);

    ghost steps = { λ p. steps_in p };

    ghost fixed = { λ p. record { setting = p.setting; home = (p.from, front_in p, blanks_in p) } };

    fn step(&mut self, alloc: Global, object: ObjectId, op: &mut Op) -> Result<(), Memory> {
        take_step(alloc, &mut self.walk, object, op)
    }

    fn last(&self) -> &Reply {
        last_of(&self.walk)
    }
}

impl Follower {
    /// Follows a list for an actor from a place, which is the start or right behind a step of the actor.
    pub fn new(
        alloc: Global,
        actor: u32,
        actors: u32,
        ticks: u32,
        maps: Items<MapDecl>,
        list: Items<Step>,
        from: usize,
    ) -> Follower
        requires within { from ≤ length list }
        requires first { (n : ℕ) (d : MadeStep) → from ≡ suc n → (slice_index_or list n d).actor ≡ actor }
        requires replies { AllByRecursion (λ (s : MadeStep). s.actor ≡ actor → IsReplyOf maps s.object s.op s.reply) list }
        ensures { result ≡ record {
          setting = record { actor = actor; actors = actors; ticks = ticks; maps = maps };
          list = list;
          from = from;
          at = from;
          strays = [];
        } }
    {
        Follower {
            walk: Walk {
                actor,
                actors,
                ticks,
                maps,
                list,
                from,
                at: from,
                strays: Items::new(alloc),
            },
        }
    }

    /// Holds at each moment. It does nothing.
    pub fn stands(&self)
        ensures { IsFollowing self.now }
    {
        let _walk = &self.walk;
    }

    /// What was followed.
    pub fn into_trail(self) -> Trail
        ensures list { result.list ≡ self.list }
        ensures at { result.reached.at ≡ self.at }
        ensures on { IsTrue result.reached.on_list ↔ (self.strays ≡ []) }
    {
        let Follower { walk } = self;
        let Walk {
            actor: _,
            actors: _,
            ticks: _,
            maps: _,
            list,
            from: _,
            at,
            strays,
        } = walk;
        let on_list = strays.is_empty();
        Trail {
            list,
            reached: Reached { at, on_list },
        }
    }
}
