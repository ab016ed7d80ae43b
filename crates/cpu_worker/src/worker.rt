// The worker of one CPU.
ghost use Rattle.std.specs.Prelude.{◌≡◌, [], IfOk, OnErr};
ghost use Rattle.bt_core.specs.Interaction.{Begins, Runs};
ghost use Rattle.stamped.specs.Traces.{actor_of, clock_of, steps_of};
ghost use Rattle.cpu_worker.specs.Chains.{HasWalked};
ghost use Rattle.cpu_worker.specs.Worlds.{sets_in, setting_in, AreBy, AreTurnsOf, KeepsOwn};
ghost use Rattle.cpu_worker.specs.Workers.{IsReadyWorker, program_in};

use crate::world::{SharedWorld, WorkerTurns};
use crate::world_port::WorldPort;
use actor_plan::bodies::Bodies;
use actor_plan::outcome::Outcome;
use actor_plan::program::run_cpu;
use bt_core::memory::Memory;
use stamped::trace::Trace;
use std::alloc::Global;
use std::mem;
use std::sync::Wait;
use turn_lock::gate::Gate;

/// The worker of the CPU at a place: the bodies that it runs, the gate of its steps, its turns and its trace.
#[derive(Drop)]
pub struct CpuWorker<'g, B, G: Gate> {
    cpu: u32,
    bodies: B,
    gate: &'g G,
    turns: WorkerTurns,
    trace: Trace,
}

impl<'g, B: Bodies, G: Gate> CpuWorker<'g, B, G> {
    /// A worker of this CPU, whose turns these are and whose trace holds no steps. It takes no memory.
    pub fn new(
        cpu: u32,
        bodies: B,
        gate: &'g G,
        turns: WorkerTurns,
        trace: Trace,
    ) -> CpuWorker<'g, B, G>
        requires turns { AreBy cpu turns }
        requires actor { actor_of trace ≡ cpu }
        requires empty { steps_of trace ≡ [] }
        ensures cpu { result.cpu ≡ cpu }
        ensures bodies { result.bodies ≡ bodies }
        ensures turns { result.turns ≡ turns }
        ensures trace { result.trace ≡ trace }
    {
        CpuWorker {
            cpu,
            bodies,
            gate,
            turns,
            trace,
        }
    }

    /// Runs the CPU's whole program over what all actors share, and gives whether it went on to its end, and the sum of the
    /// instructions of the bodies that were run.
    ///
    /// The trace is then the whole program under its own replies. Each floor is the stamp of the step before, and the first one
    /// is the trace's clock before the run; the clock is the stamp of the last step. What of the trace is at each object is the
    /// turn's own list there, if it was so before.
    ///
    /// [`Memory`] is the one error. The trace then holds the steps that were made, the first of the program's.
    pub fn run<R: Wait>(
        &mut self,
        rt: &R,
        alloc: Global,
        world: &SharedWorld,
    ) -> Result<Outcome, Memory>
        requires { IsReadyWorker B.plan world.now self.old }
        ensures whole { IfOk result (λ outcome. Runs (program_in B.plan world.now self.old) (steps_of self.new.trace) outcome) }
        ensures part { OnErr result (Begins (program_in B.plan world.now self.old) (steps_of self.new.trace)) }
        ensures walked { HasWalked (setting_in world.now self.old.cpu) (clock_of self.old.trace) self.new.trace }
        ensures turns { AreTurnsOf (sets_in world.now) self.old.cpu self.new.turns }
        ensures own { KeepsOwn (sets_in world.now) self.old.turns self.old.trace self.new.turns self.new.trace }
        ensures cpu { self.new.cpu ≡ self.old.cpu }
        ensures plan_kept { B.plan self.new.bodies ≡ B.plan self.old.bodies }
    {
        let turns = mem::replace(&mut self.turns, WorkerTurns::none(alloc, self.cpu));
        let trace = mem::replace(&mut self.trace, Trace::new(alloc, self.cpu));
        let mut port = WorldPort::new(rt, world, turns, trace, self.gate);
        let outcome = run_cpu(
            alloc,
            &mut self.bodies,
            world.recording,
            world.attached,
            self.cpu,
            world.typed.uses_exit,
            &mut port,
        );
        let (turns, trace) = port.into_parts();
        self.turns = turns;
        self.trace = trace;
        outcome
    }
}

impl<'g, B: Drop, G: Gate> CpuWorker<'g, B, G> {
    /// The CPU's turns and its trace, as the run left them. It takes no memory.
    pub fn finish(self) -> (WorkerTurns, Trace)
        ensures { (result.0 ≡ self.entry.turns) × (result.1 ≡ self.entry.trace) }
    {
        let CpuWorker {
            cpu: _,
            bodies,
            gate: _,
            turns,
            trace,
        } = self;
        drop(bodies);
        (turns, trace)
    }
}
