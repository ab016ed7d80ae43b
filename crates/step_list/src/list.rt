// The list of all steps of a run.
ghost use Rattle.std.specs.Prelude.{◌≡◌, ℕ, ◌<◌, List, [], ◌∷◌, ◌++◌, map, length, vec_len, vec_capacity, slice_get, Some, None, IsTrue, IfOk, OnOk, IsOk};
ghost use Rattle.step_list.specs.HeldFacts.{held_prop};
ghost use Rattle.step_list.specs.HeldReplies.{AreHeldReplies};
ghost use Rattle.step_list.specs.Deeds.{deed_of, reply_told};
ghost use Rattle.step_list.specs.Places.{expanded, is_all_within, last_told, step_by_deed};
ghost use Rattle.std.specs.Coded.{Coded-set};

use crate::deed::{Deed, Mark, place_of, reply_of};
use crate::held::reply_is_held;
use crate::keys::slots_for;
use crate::marking::{keep, told};
use bt_core::key::Key;
use bt_core::memory::Memory;
use bt_core::step::{ObjectId, Op, Reply, Step};
use print_list::list::PrintList;
use std::alloc::Global;

/// A step, in 24 bytes: its stamp, and what it did.
#[derive(Clone, Copy)]
pub struct Place {
    pub stamp: u64,
    pub mark: Mark,
}

/// Steps in the order in which they were pushed, in 24 bytes a step. What a `printf` call printed is kept beside these in a list of such
/// items, and what no mark tells is kept whole. A key is kept once,
/// but where another key with a hash of the same slot was kept since. What was replied is a number of 64 bits or a string of bytes, as its
/// type says when it is pushed.
///
/// Contracts speak of the list of its steps, `steps_in`, and of the room that is reserved, `HasPlace`.
pub struct StepList {
    places: Vec<Place>,
    keys: Vec<Key>,
    slots: Vec<u32>,
    whole: Vec<Deed>,
    prints: PrintList,
    last: Reply,
    ghost within: { IsTrue (is_all_within (length keys.items) (length whole.items) (length prints) places.items) },
    ghost held: { AreHeldReplies (expanded keys.items whole.items prints places.items) } by { held_prop (expanded keys.items whole.items prints places.items) },
    ghost last_is: { last ≡ last_told places.items } by { Coded-set last-code last (last_told places.items) },
}

// Written out, so that it is one call wherever such a value is let go.
impl Drop for StepList {
    fn drop(self) {
        let Self {
            places: _,
            keys: _,
            slots: _,
            whole: _,
            prints: _,
            last: _,
        } = self;
    }
}

impl StepList {
    ghost use Rattle.bt_core.specs.declared.step.Step.{Step};
    ghost use Rattle.step_list.specs.Lists.{steps_in, step_of, HasPlace};

    /// The empty list. It takes no memory.
    pub fn new(alloc: Global) -> StepList
        ensures empty { steps_in result ≡ [] }
    {
        StepList {
            places: Vec::new(alloc),
            keys: Vec::new(alloc),
            slots: Vec::new(alloc),
            whole: Vec::new(alloc),
            prints: PrintList::new(alloc),
            last: Reply::Done,
        }
    }

    /// The number of its steps.
    pub fn len(&self) -> usize
        ensures { result ≡ length (steps_in self.now) }
    {
        self.places.len()
    }

    /// The reply of the last step. The list has a step.
    pub fn last(&self) -> &Reply
        requires { 0 < length (steps_in self.now) }
        ensures { (before : List Step) × (step : Step) ×
            (steps_in self.now ≡ before ++ step ∷ []) × (result.now ≡ step.reply) }
    {
        let found = self.places[self.places.len() - 1];
        match place_of(&found.mark) {
            Some(place) => &self.whole[place as usize].reply,
            None => &self.last,
        }
    }

    /// A copy of the step at a place, counted from 0, or `None` where there are no more than so many. [`Memory`] where there is no room
    /// for the copy.
    pub fn get(&self, alloc: Global, place: usize) -> Result<Option<Step>, Memory>
        ensures { IfOk result (λ step. step ≡ slice_get (steps_in self.now) place) }
    {
        match self.places.get(place) {
            None => Ok(None),
            Some(found) => Ok(Some(step_at(
                alloc,
                self.keys.as_slice(),
                self.whole.as_slice(),
                self.prints(),
                *found,
            )?)),
        }
    }

    /// Puts copies of its steps behind those that there are, in their order. After [`Memory`] copies of the first ones may stand there.
    pub fn copy_to(&self, alloc: Global, steps: &mut Vec<Step>) -> Result<(), Memory>
        ensures { OnOk result (steps.new.items ≡ steps.old.items ++ steps_in self.now) }
    {
        copy_steps(
            alloc,
            self.keys.as_slice(),
            self.whole.as_slice(),
            self.prints(),
            self.places(),
            steps,
        )
    }

    /// Its steps by their places.
    pub(crate) fn places(&self) -> &[Place]
        ensures { result.now ≡ self.now.places.items }
    {
        self.places.as_slice()
    }

    /// What is kept whole, in the order in which it was pushed.
    pub(crate) fn whole(&self) -> &[Deed]
        ensures { result.now ≡ self.now.whole.items }
    {
        self.whole.as_slice()
    }

    /// The items that `printf` calls emitted, in the order in which they were pushed.
    pub(crate) fn prints(&self) -> &PrintList
        ensures { result.now ≡ self.now.prints }
    {
        &self.prints
    }

    /// Makes room for one step. The steps stay, also after [`Memory`], and so does room that was there, with which it does not fail.
    #[inline(always)]
    pub fn reserve(&mut self, alloc: Global) -> Result<(), Memory>
        ensures steps { steps_in self.new ≡ steps_in self.old }
        ensures room { OnOk result (HasPlace self.new) }
        ensures kept { HasPlace self.old → HasPlace self.new }
        ensures free { HasPlace self.old → IsOk result }
    {
        reserve_one(
            alloc,
            &mut self.places,
            &mut self.keys,
            &mut self.slots,
            &mut self.whole,
        )
    }

    /// Asks for room for so many steps more at once, so that the list is not moved as it grows. The steps stay, and so does room that was
    /// there. Where the system refuses it nothing has changed, and room is made step by step.
    pub fn expect(&mut self, steps: usize)
        ensures steps { steps_in self.new ≡ steps_in self.old }
        ensures kept { HasPlace self.old → HasPlace self.new }
    {
        let _asked = self.places.reserve_exact(steps);
    }

    /// Adds a step behind all others. There is room for it. What has to be kept of the operation and of the reply is taken out of them, so
    /// nothing is said of what they are then.
    #[inline(always)]
    pub fn push_reserved(
        &mut self,
        actor: u32,
        object: ObjectId,
        stamp: u64,
        op: &mut Op,
        reply: &mut Reply,
    )
        requires room { HasPlace self.old }
        ensures steps { steps_in self.new ≡ steps_in self.old ++ step_of actor stamp object op.old reply.old ∷ [] }
    {
        reply_is_held(reply);
        let mark = keep(
            &mut self.keys,
            &mut self.slots,
            &mut self.whole,
            &mut self.prints,
            actor,
            object,
            op,
            reply,
        );
        note_last(&mut self.last, &mark);
        self.places.push_reserved(Place { stamp, mark });
    }
}

/// Makes room for one place, one key and one deed more, and for the numbers of more keys where the slots are as many as the keys.
#[inline(always)]
fn reserve_one(
    alloc: Global,
    places: &mut Vec<Place>,
    keys: &mut Vec<Key>,
    slots: &mut Vec<u32>,
    whole: &mut Vec<Deed>,
) -> Result<(), Memory>
    ensures places { places.new.items ≡ places.old.items }
    ensures keys { keys.new.items ≡ keys.old.items }
    ensures whole { whole.new.items ≡ whole.old.items }
    ensures room { OnOk result ((vec_len places.new < vec_capacity places.new)
        × (vec_len keys.new < vec_capacity keys.new) × (vec_len whole.new < vec_capacity whole.new)) }
    ensures kept { (vec_len places.old < vec_capacity places.old)
        × (vec_len keys.old < vec_capacity keys.old) × (vec_len whole.old < vec_capacity whole.old)
        → (vec_len places.new < vec_capacity places.new)
        × (vec_len keys.new < vec_capacity keys.new) × (vec_len whole.new < vec_capacity whole.new) }
    ensures free { (vec_len places.old < vec_capacity places.old)
        × (vec_len keys.old < vec_capacity keys.old) × (vec_len whole.old < vec_capacity whole.old) → IsOk result }
{
    places.reserve(1)?;
    keys.reserve(1)?;
    whole.reserve(1)?;
    if keys.len() >= slots.len() {
        if let Ok(wider) = slots_for(alloc, keys.as_slice()) {
            *slots = wider;
        }
    }
    Ok(())
}

/// Keeps the reply that a mark tells by itself. Most are `Done` behind `Done`, and then nothing is written.
#[inline(always)]
fn note_last(last: &mut Reply, mark: &Mark)
    ensures { last.new ≡ reply_told mark.now }
{
    match mark {
        Mark::GetInt { .. } | Mark::Check { .. } => *last = reply_of(mark),
        Mark::SetInt { .. }
        | Mark::Delete { .. }
        | Mark::Add { .. }
        | Mark::Print { .. }
        | Mark::Whole(_) => {
            if !matches!(last, Reply::Done) {
                *last = Reply::Done;
            }
        }
    }
}

/// A copy of the step that a place tells, by the keys, the deeds that are kept whole and the printed items. [`Memory`] where there is no
/// room for it.
fn step_at(
    alloc: Global,
    keys: &[Key],
    whole: &[Deed],
    prints: &PrintList,
    place: Place,
) -> Result<Step, Memory>
    ensures { IfOk result (λ step. step ≡ step_by_deed place.stamp (deed_of keys.now whole.now prints.now place.mark)) }
{
    let Deed {
        actor,
        object,
        op,
        reply,
    } = told(alloc, keys, whole, prints, place.mark)?;
    Ok(Step {
        actor,
        object,
        stamp: place.stamp,
        op,
        reply,
    })
}

/// Puts copies of the steps that places tell behind those that there are.
fn copy_steps(
    alloc: Global,
    keys: &[Key],
    whole: &[Deed],
    prints: &PrintList,
    places: &[Place],
    steps: &mut Vec<Step>,
) -> Result<(), Memory>
    ensures { OnOk result (steps.new.items ≡ steps.old.items ++ expanded keys.now whole.now prints.now places.now) }
{
    for place in places {
        let step = step_at(alloc, keys, whole, prints, *place)?;
        steps.push(step)?;
    }
    Ok(())
}
