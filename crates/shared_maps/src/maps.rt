// The parts of all shared maps, each behind a lock of its own.
ghost use Rattle.std.specs.Prelude.{◌≡◌, ◌≢◌, ◌<◌, map, slice_get, IsSomeAnd, IfOk, OnOk, OnErr};
ghost use Rattle.bt_core.specs.declared.step.ObjectId.{ObjectId};
ghost use Rattle.bt_core.specs.Interaction.{last_reply};
ghost use Rattle.bt_core.specs.Ports.{IsSharedOp, IsReplyOf};
ghost use Rattle.agg_core.specs.Answers.{shared_answer};
ghost use Rattle.turn_lock.specs.Calls.{mine};
ghost use Rattle.stamped.specs.Sets.{ids_of, kinds_of};
ghost use Rattle.stamped.specs.SetTurns.{AreNew};
ghost use Rattle.stamped.specs.SetSteps.{AreOwn, Grows};
ghost use Rattle.stamped.specs.SetEnds.{AreClosed};
ghost use Rattle.stamped.specs.Traces.{actor_of, clock_of, steps_of, HasRoom, IsSame, at_object};
ghost use Rattle.step_objects.specs.declared.shared.PartKind.{PartKind};
ghost use Rattle.step_objects.specs.Objects.{shared_kind, SharedStands};
ghost use Rattle.shared_maps.specs.Parts.{Part, IsMapPart, IsPartFor, IsPartStep, parts_from, firsts_from};
ghost use Rattle.shared_maps.specs.Refusals.{RefusesAt};

use crate::objects::new_parts;
use bt_core::items::Items;
use bt_core::map::MapDecl;
use bt_core::memory::{Memory, TryCopy};
use bt_core::step::{ObjectId, Op};
use stamped::lock_set::LockSet;
use stamped::trace::Trace;
use stamped::turns::Turns;
use std::alloc::Global;
use std::sync::Wait;
use step_objects::shared::SharedPart;
use turn_lock::gate::Gate;
use turn_lock::turn::Joined;

/// The parts of all shared maps, each behind a lock of its own, so that who waits at one part waits for no
/// other. They may be shared among threads by reference.
///
/// Contracts see the declarations of the maps and the number of actors.
pub struct SharedMaps {
    set: LockSet<SharedPart>,
    maps: Items<MapDecl>,
    firsts: Vec<u32>,
    ghost ids: { ids_of set ≡ map (λ (part : Part). part.0) (parts_from 0 maps) },
    ghost kinds: { kinds_of shared_kind set ≡ map (λ (part : Part). part.1) (parts_from 0 maps) },
    ghost places: { firsts.items ≡ firsts_from 0 maps },
}

// Written out, so that it is one call wherever such a value is let go.
impl Drop for SharedMaps {
    fn drop(self) {
        let Self {
            set: _,
            maps: _,
            firsts: _,
        } = self;
    }
}

impl SharedMaps {
    ghost use Rattle.shared_maps.specs.Maps.{part_maps, part_actors, part_ids, part_kinds, ArePartTurns, AreAllPartTurns};

    /// Parts of these maps that took no operation yet, and the turns of so many actors at them, one at each
    /// part, in the order of the maps and their parts. There is at least one actor. No turn has an entry.
    ///
    /// After [`Memory`] nothing is left. It is answered, too, where a part would have no number of 32 bits.
    pub fn new(
        alloc: Global,
        maps: &Items<MapDecl>,
        actors: u32,
    ) -> Result<(SharedMaps, Vec<Turns>), Memory>
        requires some { 0 < actors }
        ensures maps { IfOk result (λ r. part_maps r.0 ≡ maps.now) }
        ensures actors { IfOk result (λ r. part_actors r.0 ≡ actors) }
        ensures turns { IfOk result (λ r. AreAllPartTurns r.0 r.1.items) }
        ensures fresh { IfOk result (λ r. AreNew r.1.items) }
    {
        let (objects, firsts) = new_parts(alloc, maps.as_slice())?;
        let (set, turns) = LockSet::new(alloc, objects, actors)?;
        let shared = SharedMaps {
            set,
            maps: maps.try_copy(alloc)?,
            firsts,
        };
        Ok((shared, turns))
    }

    // The place of a part.
    fn place_of(&self, object: ObjectId) -> usize
        requires { IsMapPart (part_maps self.now) object }
        ensures { IsSomeAnd (slice_get (parts_from 0 (part_maps self.now)) result) (IsPartFor (part_maps self.now) object) }
    {
        match object {
            ObjectId::Shared { map, part } => self.firsts[map.0 as usize] as usize + part as usize,
            _ => 0,
        }
    }

    /// Performs one operation at a part of a shared map, as one step of the trace, when the turn comes. The
    /// turns are those of the trace's actor at these maps.
    ///
    /// The trace grows by this step, whose reply is of the kind that the operation has; what of it is at any
    /// other object stays, and what of it is at each part is still the turn's own list there, if it was so
    /// before. The gate is told of the turn while it is held. What the step has to keep of the operation is
    /// taken out of it, so nothing is said of the operation behind a step.
    ///
    /// After [`Memory`] the trace, all own lists and the operation are as before. Where the trace had room for
    /// a step, [`Memory`] is answered only where the operation is not free after the history that the turn has
    /// then seen, or where a clock stands at its end.
    pub fn step<G: Gate, R: Wait>(
        &self,
        rt: &R,
        alloc: Global,
        turns: &mut Turns,
        trace: &mut Trace,
        object: ObjectId,
        op: &mut Op,
        gate: &G,
    ) -> Result<(), Memory>
        requires own { IsPartStep (part_maps self.now) object op.old }
        requires turns { ArePartTurns self.now turns.old }
        requires actor { turns.old.0 ≡ actor_of trace.old }
        ensures turns { ArePartTurns self.now turns.new × (turns.new.0 ≡ turns.old.0) }
        ensures actor { actor_of trace.new ≡ actor_of trace.old }
        ensures done { OnOk result (Grows object op.old trace.old trace.new) }
        ensures replied { OnOk result (IsReplyOf (part_maps self.now) object op.old (last_reply (steps_of trace.new))) }
        ensures memory { OnErr result (IsSame trace.old trace.new × (map mine turns.new.1 ≡ map mine turns.old.1)) }
        ensures whole { OnErr result (op.new ≡ op.old) }

        // what of the trace is at each object
        ensures own { AreOwn (part_ids self.now) turns.old.1 trace.old → AreOwn (part_ids self.now) turns.new.1 trace.new }
        ensures elsewhere { (o : ObjectId) → o ≢ object → at_object o trace.new ≡ at_object o trace.old }

        // with room that was reserved
        ensures cause { HasRoom trace.old → OnErr result
            (RefusesAt (part_actors self.now) (parts_from 0 (part_maps self.now)) object (clock_of trace.old) op.old turns.old.1 turns.new.1) }
        ensures room { HasRoom trace.old → OnErr result (HasRoom trace.new) }
    {
        let place = self.place_of(object);
        self.set.step(rt, alloc, turns, trace, place, op, gate)
    }

    /// Takes all turns back, and gives each part with the history of its lock, map by map and part by part.
    ///
    /// Each part stands for its history, which is legal and rises, and which has of each actor just its own
    /// list. After [`Memory`] all of them are dropped.
    pub fn close(
        self,
        alloc: Global,
        turns: Vec<Turns>,
    ) -> Result<Vec<(SharedPart, Joined)>, Memory>
        requires { AreAllPartTurns self turns.items }
        ensures { IfOk result (λ closed. AreClosed shared_kind (λ of. IsSharedOp of.decl) (λ of. shared_answer of.decl.kind)
            SharedStands (part_actors self) (part_kinds self) turns.items closed.items) }
    {
        let SharedMaps {
            set,
            maps: _,
            firsts: _,
        } = self;
        set.close(alloc, turns)
    }
}
