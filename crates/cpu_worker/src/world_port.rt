// The port of one actor over what all actors share.
ghost use Rattle.std.specs.Prelude.{◌≡◌, ◌<◌, length, OnOk, OnErr};
ghost use Rattle.bt_core.specs.Interaction.{last_reply};
ghost use Rattle.bt_core.specs.Ports.{CanStep, IsReplyOf};
ghost use Rattle.stamped.specs.SetSteps.{Grows};
ghost use Rattle.stamped.specs.Traces.{actor_of, steps_of, IsSame};
ghost use Rattle.cpu_worker.specs.Worlds.{maps_in, sets_in, setting_in, AreTurnsOf, KeepsOwn};
ghost use Rattle.cpu_worker.specs.AtWork.{IsAtWork};

use crate::world::{SharedWorld, WorkerTurns};
use bt_core::memory::Memory;
use bt_core::port::Port;
use bt_core::step::{ObjectId, Op, Reply};
use percpu_tables::tables::Tables;
use shared_maps::maps::SharedMaps;
use side_locks::sides::SideLocks;
use stamped::trace::Trace;
use std::alloc::Global;
use std::marker::Model;
use std::snapshot::Snapshot;
use std::sync::Wait;
use turn_lock::gate::Gate;

/// Makes the steps of one actor, which may be the main actor, at the locks that all actors share. It has the actor's turns and
/// trace, and gives them back at the end.
///
/// Contracts see the world, the turns and the trace as they were when it was made, and both as they are now.
pub struct WorldPort<'w, R: Wait, G: Gate> {
    rt: &'w R,
    world: &'w SharedWorld<'w>,
    gate: &'w G,
    first_turns: Snapshot<WorkerTurns>,
    first_trace: Snapshot<Trace>,
    turns: WorkerTurns,
    trace: Trace,
}

impl<'w, R: Wait, G: Gate> Model for WorldPort<'w, R, G> {
    ghost use Rattle.std.specs.Coded.{codes};
    ghost use Rattle.percpu_tables.specs.contracts.tables.Tables as the_tables;
    ghost use Rattle.shared_maps.specs.contracts.maps.SharedMaps as the_maps;
    ghost use Rattle.side_locks.specs.contracts.sides.SideLocks as the_sides;
    ghost use Rattle.stamped.specs.contracts.trace.Trace as the_trace;
    ghost use Rattle.stamped.specs.Traces.{actor_of as of};
    ghost use Rattle.cpu_worker.specs.contracts.world.WorkerTurns as the_turns;
    ghost use Rattle.cpu_worker.specs.AtWork.{AtWork, IsAtWork as IsWork};
    ghost use Rattle.cpu_worker.specs.Worlds.{sets_in as sets_of, setting_in as setting_for};

    ghost Value = { AtWork };

    ghost coded = { Prim.hlevel (
      codes,
      the_maps.the_row.coded,
      the_tables.the_row.coded,
      the_sides.the_row.coded,
      the_turns.the_row.coded,
      the_trace.the_row.coded,
    ) };

    ghost view = { λ p. record {
      sets = sets_of p.world.now;
      setting = setting_for p.world.now (of p.first_trace.value);
      first_turns = p.first_turns.value;
      first_trace = p.first_trace.value;
      turns = p.turns;
      trace = p.trace;
    } };

    ghost invariant = { λ p. IsWork (record {
      sets = sets_of p.world.now;
      setting = setting_for p.world.now (of p.first_trace.value);
      first_turns = p.first_turns.value;
      first_trace = p.first_trace.value;
      turns = p.turns;
      trace = p.trace;
    }) };
}

/// What of a port stays the same beside its setting: the sets of locks, and the actor's turns and trace when the port was made. No
/// value of it is made.
pub struct Start {
    pub maps: SharedMaps,
    pub tables: Tables,
    pub sides: SideLocks,
    pub turns: WorkerTurns,
    pub trace: Trace,
}

/// One step at an object of the world, by the turn of its set. What the step has to keep of the operation is taken out of it, so nothing is
/// said of the operation behind a step.
///
/// After [`Memory`] no step was made, and the operation is as it was.
fn make_step<R: Wait, G: Gate>(
    rt: &R,
    alloc: Global,
    world: &SharedWorld,
    gate: &G,
    turns: &mut WorkerTurns,
    trace: &mut Trace,
    object: ObjectId,
    op: &mut Op,
) -> Result<(), Memory>
    requires can { CanStep (setting_in world.now (actor_of trace.old)) object op.old }
    requires turns { AreTurnsOf (sets_in world.now) (actor_of trace.old) turns.old }
    ensures turns { AreTurnsOf (sets_in world.now) (actor_of trace.old) turns.new }
    ensures actor { actor_of trace.new ≡ actor_of trace.old }
    ensures done { OnOk result (Grows object op.old trace.old trace.new) }
    ensures replied { OnOk result (IsReplyOf (maps_in world.now) object op.old (last_reply (steps_of trace.new))) }
    ensures memory { OnErr result (IsSame trace.old trace.new) }
    ensures whole { OnErr result (op.new ≡ op.old) }
    ensures own { KeepsOwn (sets_in world.now) turns.old trace.old turns.new trace.new }
{
    match object {
        ObjectId::Shared { map: _, part: _ } => {
            world
                .maps
                .step(rt, alloc, &mut turns.maps, trace, object, op, gate)
        }
        ObjectId::Cpu(_) => world
            .tables
            .step(rt, alloc, &mut turns.tables, trace, object, op, gate),
        ObjectId::Clock => world.sides.step(
            rt,
            alloc,
            &mut turns.sides,
            trace,
            ObjectId::Clock,
            op,
            gate,
        ),
        ObjectId::Out => world.sides.step(
            rt,
            alloc,
            &mut turns.sides,
            trace,
            ObjectId::Out,
            op,
            gate,
        ),
    }
}

/// The reply of the last step.
fn last_of(trace: &Trace) -> &Reply
    requires { 0 < length (steps_of trace.now) }
    ensures { result.now ≡ last_reply (steps_of trace.now) }
{
    trace.last()
}

impl<'w, R: Wait, G: Gate> WorldPort<'w, R, G> {
    /// A port for the actor of the trace, whose turns at the world's sets these are. It takes no memory.
    pub fn new(
        rt: &'w R,
        world: &'w SharedWorld<'w>,
        turns: WorkerTurns,
        trace: Trace,
        gate: &'w G,
    ) -> WorldPort<'w, R, G>
        requires turns { AreTurnsOf (sets_in world.now) (actor_of trace) turns }
        ensures { result ≡ record {
          sets = sets_in world.now;
          setting = setting_in world.now (actor_of trace);
          first_turns = turns;
          first_trace = trace;
          turns = turns;
          trace = trace;
        } }
    {
        let first_turns = Snapshot::of(&turns);
        let first_trace = Snapshot::of(&trace);
        WorldPort {
            rt,
            world,
            gate,
            first_turns,
            first_trace,
            turns,
            trace,
        }
    }

    /// The actor's turns and its trace.
    pub fn into_parts(self) -> (WorkerTurns, Trace)
        ensures parts { (result.0 ≡ self.entry.turns) × (result.1 ≡ self.entry.trace) }
        ensures work { IsAtWork self.entry }
    {
        let WorldPort {
            rt: _,
            world: _,
            gate: _,
            first_turns: _,
            first_trace: _,
            turns,
            trace,
        } = self;
        (turns, trace)
    }
}

impl<'w, R: Wait, G: Gate> Port for WorldPort<'w, R, G> {
    ghost use Rattle.cpu_worker.specs.Starts.{start_of};

    type Home = Start;

    ghost steps = { λ p. steps_of p.trace };

    ghost fixed = { λ p. record { setting = p.setting; home = start_of p } };

    fn step(&mut self, alloc: Global, object: ObjectId, op: &mut Op) -> Result<(), Memory> {
        make_step(
            self.rt,
            alloc,
            self.world,
            self.gate,
            &mut self.turns,
            &mut self.trace,
            object,
            op,
        )
    }

    fn last(&self) -> &Reply {
        last_of(&self.trace)
    }
}
