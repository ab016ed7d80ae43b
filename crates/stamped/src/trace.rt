// Traces: the steps of one actor, with the clock at each.
ghost use Rattle.std.specs.Prelude.{◌≡◌, ℕ, IsTrue, List, [], ◌∷◌, ◌++◌, ◌<◌, max, length, vec_len, vec_capacity, IsOk, OnOk};
ghost use Rattle.step_list.specs.Lists.{steps_in};
ghost use Rattle.stamped.specs.Floors.{floors_told, last_stamp, is_all_before};
ghost use Rattle.stamped.specs.Rising.{is_rising};

use crate::raised::{Raised, note};
use bt_core::memory::Memory;
use bt_core::step::{ObjectId, Op, Reply};
use std::alloc::Global;
use step_list::list::StepList;

/// The steps of one actor in their order, each with the clock that the actor had before it, and the
/// actor's clock.
///
/// The clock begins at 0 and then stands at the last step's stamp, unless it was raised since. So
/// each stamp is above the clock before it, and the stamps rise. Contracts see the actor, the steps,
/// the clocks before them (their floors) and the clock.
pub struct Trace {
    actor: u32,
    clock: u64,
    steps: StepList,
    stood: u64,
    raised: Vec<Raised>,
    ghost stood_is: { stood ≡ last_stamp 0 (steps_in steps) },
    ghost before: { IsTrue (is_all_before (length (steps_in steps)) raised.items) },
    ghost paired: { length (floors_told 0 0 (steps_in steps) raised.items) ≡ length (steps_in steps) },
    ghost rising: { IsTrue (is_rising 0 (steps_in steps) (floors_told 0 0 (steps_in steps) raised.items) clock) },
}

// Written out, so that it is one call wherever such a value is let go.
impl Drop for Trace {
    fn drop(self) {
        let Self {
            actor: _,
            clock: _,
            steps: _,
            stood: _,
            raised: _,
        } = self;
    }
}

impl Trace {
    ghost use Rattle.bt_core.specs.declared.step.Step.{Step};
    ghost use Rattle.stamped.specs.Traces.{actor_of, clock_of, steps_of, floors_of, step_by, IsSame, HasRoom};

    /// The empty trace of an actor, with its clock at 0. It takes no memory.
    pub fn new(alloc: Global, actor: u32) -> Trace
        ensures actor { actor_of result ≡ actor }
        ensures empty { (steps_of result ≡ []) × (floors_of result ≡ []) }
        ensures clock { clock_of result ≡ 0 }
    {
        Trace {
            actor,
            clock: 0,
            steps: StepList::new(alloc),
            stood: 0,
            raised: Vec::new(alloc),
        }
    }

    /// Makes room for one step, and changes nothing else. Where there is room already it answers Ok.
    ///
    /// It takes the allocator, as each call that may take memory does; the lists grow by the one
    /// that the trace was made with.
    pub fn reserve(&mut self, alloc: Global) -> Result<(), Memory>
        ensures same { IsSame self.old self.new }
        ensures room { OnOk result (HasRoom self.new) }
        ensures kept { HasRoom self.old → HasRoom self.new }
        ensures free { HasRoom self.old → IsOk result }
    {
        self.steps.reserve(alloc)?;
        self.raised.reserve(1)?;
        Ok(())
    }

    /// Asks for room for so many steps more at once, and changes nothing else. Where the system refuses it, room is made step by step.
    pub fn expect(&mut self, steps: usize)
        ensures same { IsSame self.old self.new }
        ensures kept { HasRoom self.old → HasRoom self.new }
    {
        self.steps.expect(steps);
    }

    /// The reply of the last step. The trace holds a step.
    pub fn last(&self) -> &Reply
        requires { 0 < length (steps_of self.now) }
        ensures { (before : List Step) × (step : Step) ×
            (steps_of self.now ≡ before ++ step ∷ []) × (result.now ≡ step.reply) }
    {
        self.steps.last()
    }

    /// The actor's clock.
    pub fn clock(&self) -> u64
        ensures { result ≡ clock_of self.now }
    {
        self.clock
    }

    /// Makes the clock the greater of itself and a number.
    pub fn raise(&mut self, to: u64)
        ensures clock { clock_of self.new ≡ max (clock_of self.old) to }
        ensures actor { actor_of self.new ≡ actor_of self.old }
        ensures steps { (steps_of self.new ≡ steps_of self.old) × (floors_of self.new ≡ floors_of self.old) }
        ensures room { HasRoom self.old → HasRoom self.new }
    {
        self.clock = self.clock.max(to);
    }

    /// The steps in their order.
    pub fn into_steps(self) -> StepList
        ensures { steps_in result ≡ steps_of self }
    {
        let Trace {
            actor: _,
            clock: _,
            steps,
            stood: _,
            raised: _,
        } = self;
        steps
    }

    // Adds a step with this stamp, to which the clock then goes. There is room for it. What has to be kept of the operation and of the
    // reply is taken out of them, so nothing is said of what they are then.
    pub(crate) fn store(&mut self, object: ObjectId, stamp: u64, op: &mut Op, reply: &mut Reply)
        requires room { HasRoom self.old }
        requires above { clock_of self.old < stamp }
        ensures actor { actor_of self.new ≡ actor_of self.old }
        ensures clock { clock_of self.new ≡ stamp }
        ensures steps { steps_of self.new ≡ steps_of self.old ++ step_by (actor_of self.old) object stamp op.old reply.old ∷ [] }
        ensures floors { floors_of self.new ≡ floors_of self.old ++ clock_of self.old ∷ [] }
    {
        note(&mut self.raised, self.steps.len(), self.stood, self.clock);
        self.steps
            .push_reserved(self.actor, object, stamp, op, reply);
        self.stood = stamp;
        self.clock = stamp;
    }
}
