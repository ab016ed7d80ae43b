// The tables of all actors, each behind a lock of its own.
ghost use Rattle.std.specs.Prelude.{◌≡◌, ◌≢◌, ℕ, ◌<◌, map, All, IfOk, OnOk, OnErr};
ghost use Rattle.bt_core.specs.declared.step.ObjectId.{ObjectId};
ghost use Rattle.bt_core.specs.declared.step.ObjectId.TheVariants.{Cpu};
ghost use Rattle.bt_core.specs.Interaction.{last_reply};
ghost use Rattle.bt_core.specs.Kinds.{IsFineDecl};
ghost use Rattle.bt_core.specs.Ports.{IsTableOp, IsReplyOf};
ghost use Rattle.agg_core.specs.Answers.{table_answer};
ghost use Rattle.turn_lock.specs.Calls.{mine};
ghost use Rattle.stamped.specs.Numbered.{numbered};
ghost use Rattle.stamped.specs.Sets.{actors_of, ids_of, kinds_of};
ghost use Rattle.stamped.specs.SetTurns.{AreNew};
ghost use Rattle.stamped.specs.SetSteps.{AreOwn, Grows, IsRefused, AtObject};
ghost use Rattle.stamped.specs.SetEnds.{law_for, AreClosed};
ghost use Rattle.stamped.specs.Traces.{actor_of, clock_of, steps_of, HasRoom, IsSame, at_object};
ghost use Rattle.step_objects.specs.FineDecls.{fine_decls_prop};
ghost use Rattle.step_objects.specs.Free.{IsTableFree};
ghost use Rattle.step_objects.specs.Objects.{cpu_kind, CpuStands};
ghost use Rattle.percpu_tables.specs.Objects.{IsTableStep};

use crate::objects::new_tables;
use bt_core::items::Items;
use bt_core::map::MapDecl;
use bt_core::memory::{Memory, TryCopy};
use bt_core::step::{ObjectId, Op};
use stamped::lock_set::LockSet;
use stamped::trace::Trace;
use stamped::turns::Turns;
use std::alloc::Global;
use std::sync::Wait;
use step_objects::cpu::CpuTable;
use turn_lock::gate::Gate;
use turn_lock::turn::Joined;

/// The tables of all actors, each behind a lock of its own, so that no actor waits at its tables for
/// those of another. They may be shared among threads by reference.
///
/// Contracts see the declarations of the maps and the number of actors.
pub struct Tables {
    set: LockSet<CpuTable>,
    maps: Items<MapDecl>,
    ghost fine: { All IsFineDecl maps } by { fine_decls_prop maps },
    ghost ids: { ids_of set ≡ numbered Cpu 0 (actors_of set) },
    ghost kinds: { kinds_of cpu_kind set ≡ numbered (λ _. maps) 0 (actors_of set) },
}

// Written out, so that it is one call wherever such a value is let go.
impl Drop for Tables {
    fn drop(self) {
        let Self { set: _, maps: _ } = self;
    }
}

// The place of the tables of an actor, and 0 for any other object.
fn place_of(object: ObjectId) -> usize
    ensures { (actor : ℕ) → object ≡ Cpu actor → result ≡ actor }
{
    match object {
        ObjectId::Cpu(actor) => actor as usize,
        _ => 0,
    }
}

impl Tables {
    ghost use Rattle.percpu_tables.specs.Tables.{table_maps, table_actors, table_ids, table_kinds, AreTableTurns, AreAllTableTurns};

    /// Tables for these maps that took no operation yet, for so many actors, and the turns of each actor at
    /// them, in the order of the actors whose tables they are. There is at least one actor, and the
    /// declarations are well formed. No turn has an entry.
    ///
    /// After [`Memory`] nothing is left.
    pub fn new(
        alloc: Global,
        maps: &Items<MapDecl>,
        actors: u32,
    ) -> Result<(Tables, Vec<Turns>), Memory>
        requires some { 0 < actors }
        requires fine { All IsFineDecl maps.now }
        ensures maps { IfOk result (λ r. table_maps r.0 ≡ maps.now) }
        ensures actors { IfOk result (λ r. table_actors r.0 ≡ actors) }
        ensures turns { IfOk result (λ r. AreAllTableTurns r.0 r.1.items) }
        ensures fresh { IfOk result (λ r. AreNew r.1.items) }
    {
        let objects = new_tables(alloc, maps, actors)?;
        let (set, turns) = LockSet::new(alloc, objects, actors)?;
        let tables = Tables {
            set,
            maps: maps.try_copy(alloc)?,
        };
        Ok((tables, turns))
    }

    /// Performs one operation at the tables of an actor, as one step of the trace, when the turn comes. The
    /// turns are those of the trace's actor at these tables.
    ///
    /// The trace grows by this step, whose reply is of the kind that the operation has; what of it is at any
    /// other object stays, and what of it is at each of the tables is still the turn's own list there, if it
    /// was so before. The gate is told of the turn while it is held. What the step has to keep of the
    /// operation is taken out of it, so nothing is said of the operation behind a step.
    ///
    /// After [`Memory`] the trace, all own lists and the operation are as before. Where the trace had room for
    /// a step, [`Memory`] is answered only where the operation is not free after the history that the turn has
    /// then seen, or where a clock stands at its end.
    pub fn step<G: Gate, R: Wait>(
        &self,
        rt: &R,
        alloc: Global,
        turns: &mut Turns,
        trace: &mut Trace,
        object: ObjectId,
        op: &mut Op,
        gate: &G,
    ) -> Result<(), Memory>
        requires own { IsTableStep (table_maps self.now) (table_actors self.now) object op.old }
        requires turns { AreTableTurns self.now turns.old }
        requires actor { turns.old.0 ≡ actor_of trace.old }
        ensures turns { AreTableTurns self.now turns.new × (turns.new.0 ≡ turns.old.0) }
        ensures actor { actor_of trace.new ≡ actor_of trace.old }
        ensures done { OnOk result (Grows object op.old trace.old trace.new) }
        ensures replied { OnOk result (IsReplyOf (table_maps self.now) object op.old (last_reply (steps_of trace.new))) }
        ensures memory { OnErr result (IsSame trace.old trace.new × (map mine turns.new.1 ≡ map mine turns.old.1)) }
        ensures whole { OnErr result (op.new ≡ op.old) }

        // what of the trace is at each object
        ensures own { AreOwn (table_ids self.now) turns.old.1 trace.old → AreOwn (table_ids self.now) turns.new.1 trace.new }
        ensures elsewhere { (o : ObjectId) → o ≢ object → at_object o trace.new ≡ at_object o trace.old }

        // with room that was reserved
        ensures cause { let law = law_for (λ maps. IsTableOp maps) table_answer (table_actors self.now) (table_maps self.now) in
            HasRoom trace.old → OnErr result
            (AtObject (IsRefused law IsTableFree (clock_of trace.old) op.old) (table_ids self.now) object turns.old.1 turns.new.1) }
        ensures room { HasRoom trace.old → OnErr result (HasRoom trace.new) }
    {
        let place = place_of(object);
        self.set.step(rt, alloc, turns, trace, place, op, gate)
    }

    /// Takes all turns back, and gives the tables of each actor with the history of their lock, in the order
    /// of the actors.
    ///
    /// The tables stand for this history, which is legal and rises, and which has of each actor just its own
    /// list. After [`Memory`] all of them are dropped.
    pub fn close(self, alloc: Global, turns: Vec<Turns>) -> Result<Vec<(CpuTable, Joined)>, Memory>
        requires { AreAllTableTurns self turns.items }
        ensures { IfOk result (λ closed.
            AreClosed cpu_kind (λ maps. IsTableOp maps) table_answer CpuStands (table_actors self) (table_kinds self) turns.items closed.items) }
    {
        let Tables { set, maps: _ } = self;
        set.close(alloc, turns)
    }
}
