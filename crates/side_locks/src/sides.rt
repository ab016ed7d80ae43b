// The tick clock and the output, each behind a lock of its own.
ghost use Rattle.std.specs.Prelude.{◌≡◌, ◌≢◌, ◌+◌, ◌<◌, ◌^◌, ◌-◌, [], ◌∷◌, IfOk, OnOk, OnErr};
ghost use Rattle.bt_core.specs.declared.step.ObjectId.{ObjectId};
ghost use Rattle.bt_core.specs.declared.step.ObjectId.TheVariants.{Clock as TheClock, Out as TheOut};
ghost use Rattle.bt_core.specs.Interaction.{last_reply};
ghost use Rattle.bt_core.specs.Ports.{IsReplyOf};
ghost use Rattle.stamped.specs.Rows.{firsts};
ghost use Rattle.stamped.specs.Sets.{actors_of, ids_of, kinds_of, AreAllSetTurns};
ghost use Rattle.stamped.specs.SetTurns.{AreNew};
ghost use Rattle.stamped.specs.SetSteps.{Grows};
ghost use Rattle.stamped.specs.SetEnds.{IsClosed};
ghost use Rattle.stamped.specs.Traces.{actor_of, clock_of, steps_of, HasRoom, IsSame, at_object};
ghost use Rattle.step_objects.specs.Clocks.{clock_kind, ClockStands};
ghost use Rattle.side_locks.specs.Turns.{clocks, outs};
ghost use Rattle.side_locks.specs.Steps.{IsSideStep, AreBy, OwnBoth, SameOwn, RefusesAt, own_of_clock, reply_of_clock, own_of_out, reply_of_out};

use crate::turns::{SideTurns, joined, parted};
use bt_core::memory::Memory;
use bt_core::step::{ObjectId, Op};
use stamped::lock_set::LockSet;
use stamped::trace::Trace;
use stamped::turns::Turns;
use std::alloc::Global;
use std::sync::Wait;
use step_objects::clock::TickClock;
use step_objects::out::OutLog;
use turn_lock::gate::Gate;
use turn_lock::object::SeqObject;
use turn_lock::turn::Joined;

/// The tick clock and the output, each behind a lock of its own. They may be shared among threads by
/// reference.
///
/// Contracts see the numbers of CPUs and of ticks.
pub struct SideLocks {
    clock: LockSet<TickClock>,
    out: LockSet<OutLog>,
    cpus: u32,
    ticks: u32,
    ghost clock_id: { ids_of clock ≡ TheClock ∷ [] },
    ghost clock_is: { kinds_of clock_kind clock ≡ record { cpus = cpus; ticks = ticks } ∷ [] },
    ghost clock_actors: { actors_of clock ≡ cpus + 1 },
    ghost out_id: { ids_of out ≡ TheOut ∷ [] },
    ghost out_is: { kinds_of (λ _. tt) out ≡ tt ∷ [] },
    ghost out_actors: { actors_of out ≡ cpus + 1 },
}

// Written out, so that it is one call wherever such a value is let go.
impl Drop for SideLocks {
    fn drop(self) {
        let Self {
            clock: _,
            out: _,
            cpus: _,
            ticks: _,
        } = self;
    }
}

// A lock round one object that has taken no operation yet, and the turns of each actor at it.
fn one_lock<O: SeqObject>(
    alloc: Global,
    id: ObjectId,
    object: O,
    actors: u32,
) -> Result<(LockSet<O>, Vec<Turns>), Memory>
    requires actors { 0 < actors }
    requires object { O.stands_for object [] }
    ensures id { IfOk result (λ r. ids_of r.0 ≡ id ∷ []) }
    ensures kind { IfOk result (λ r. kinds_of O.kind r.0 ≡ O.kind object ∷ []) }
    ensures actors { IfOk result (λ r. actors_of r.0 ≡ actors) }
    ensures turns { IfOk result (λ r. AreAllSetTurns r.0 r.1.items) }
    ensures fresh { IfOk result (λ r. AreNew r.1.items) }
{
    let mut objects = Vec::with_capacity(alloc, 1)?;
    objects.push_reserved((id, object));
    LockSet::new(alloc, objects, actors)
}

impl SideLocks {
    ghost use Rattle.side_locks.specs.Sides.{side_kind, side_actors, AreSideTurns, AreAllSideTurns};

    /// A clock for so many CPUs and ticks and an output, which took no operation yet, and the turns of each
    /// CPU and of the main actor at both. There is at least one CPU. No turn has an entry.
    ///
    /// After [`Memory`] nothing is left.
    pub fn new(alloc: Global, cpus: u32, ticks: u32) -> Result<(SideLocks, Vec<SideTurns>), Memory>
        requires some { 0 < cpus }
        requires few { cpus < 2 ^ 32 - 1 }
        ensures kind { IfOk result (λ r. side_kind r.0 ≡ record { cpus = cpus; ticks = ticks }) }
        ensures turns { IfOk result (λ r. AreAllSideTurns r.0 r.1.items) }
        ensures fresh { IfOk result (λ r. AreNew (clocks r.1.items) × AreNew (outs r.1.items)) }
    {
        let actors = cpus + 1;
        let object = TickClock::new(alloc, cpus, ticks)?;
        let (clock, clock_rows) = one_lock(alloc, ObjectId::Clock, object, actors)?;
        let (out, out_rows) = one_lock(alloc, ObjectId::Out, OutLog::new(alloc)?, actors)?;
        let turns = joined(alloc, clock_rows, out_rows)?;
        let sides = SideLocks {
            clock,
            out,
            cpus,
            ticks,
        };
        Ok((sides, turns))
    }

    /// Performs one operation at the clock or at the output, as one step of the trace, when the turn comes.
    /// The turns are those of the trace's actor at both.
    ///
    /// The trace grows by this step, whose reply is of the kind that the operation has; what of it is at any
    /// other object stays, and what of it is at the clock and at the output is still the turns' own lists
    /// there, if it was so before. The gate is told of the turn while it is held. What the step has to keep of
    /// the operation is taken out of it, so nothing is said of the operation behind a step.
    ///
    /// After [`Memory`] the trace, both own lists and the operation are as before. Where the trace had room for
    /// a step, [`Memory`] is answered only where a clock stands at its end.
    pub fn step<G: Gate, R: Wait>(
        &self,
        rt: &R,
        alloc: Global,
        turns: &mut SideTurns,
        trace: &mut Trace,
        object: ObjectId,
        op: &mut Op,
        gate: &G,
    ) -> Result<(), Memory>
        requires own { IsSideStep (side_kind self.now).ticks object op.old }
        requires turns { AreSideTurns self.now turns.old }
        requires actor { AreBy (actor_of trace.old) turns.old }
        ensures turns { AreSideTurns self.now turns.new × AreBy (actor_of trace.old) turns.new }
        ensures actor { actor_of trace.new ≡ actor_of trace.old }
        ensures done { OnOk result (Grows object op.old trace.old trace.new) }
        ensures replied { OnOk result (IsReplyOf [] object op.old (last_reply (steps_of trace.new))) }
        ensures memory { OnErr result (IsSame trace.old trace.new × SameOwn turns.old turns.new) }
        ensures whole { OnErr result (op.new ≡ op.old) }

        // what of the trace is at each object
        ensures own { OwnBoth turns.old trace.old → OwnBoth turns.new trace.new }
        ensures elsewhere { (o : ObjectId) → o ≢ object → at_object o trace.new ≡ at_object o trace.old }

        // with room that was reserved
        ensures cause { HasRoom trace.old → OnErr result (RefusesAt (side_kind self.now) object (clock_of trace.old) op.old turns.old turns.new) }
        ensures room { HasRoom trace.old → OnErr result (HasRoom trace.new) }
    {
        match object {
            ObjectId::Clock => self
                .clock
                .step(rt, alloc, &mut turns.at_clock, trace, 0, op, gate),
            ObjectId::Out => self
                .out
                .step(rt, alloc, &mut turns.at_out, trace, 0, op, gate),
            _ => unreachable!(),
        }
    }

    /// Takes all turns back, and gives the clock and the output, each with the history of its lock.
    ///
    /// Each stands for its history, which is legal and rises, and which has of each actor just its own list.
    /// After [`Memory`] all of them are dropped.
    pub fn close(
        self,
        alloc: Global,
        turns: Vec<SideTurns>,
    ) -> Result<((TickClock, Joined), (OutLog, Joined)), Memory>
        requires { AreAllSideTurns self turns.items }
        ensures clock { IfOk result (λ r. IsClosed clock_kind own_of_clock reply_of_clock ClockStands (side_actors self) (side_kind self)
            (firsts (clocks turns.items)) r.0.0 r.0.1) }
        ensures out { IfOk result (λ r. IsClosed (λ _. tt) own_of_out reply_of_out (λ _ _. Unit {0}) (side_actors self) tt
            (firsts (outs turns.items)) r.1.0 r.1.1) }
    {
        let SideLocks {
            clock,
            out,
            cpus: _,
            ticks: _,
        } = self;
        let (clock_rows, out_rows) = parted(alloc, turns)?;
        let mut clocks = clock.close(alloc, clock_rows)?;
        let mut outs = out.close(alloc, out_rows)?;
        Ok((clocks.remove(0), outs.remove(0)))
    }
}
