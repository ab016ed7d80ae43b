// The port of a run on one thread.
ghost use Rattle.std.specs.Prelude.{◌≡◌, ◌<◌, ◌+◌, [], length, All, true, false, OnOk, OnErr, IfOk};
ghost use Rattle.bt_core.specs.Interaction.{MakesStep, last_reply};
ghost use Rattle.bt_core.specs.Kinds.{IsFineDecl};
ghost use Rattle.bt_core.specs.Ports.{CanStep, IsReplyOf};
ghost use Rattle.step_list.specs.Lists.{steps_in};
ghost use Rattle.run_objects.specs.Objects.{Stand};
ghost use Rattle.bt_run.specs.Runs.{world_of, seen_of, setting_of, IsRunning, IsSeen, IsLeft, first_turn};

use bt_core::items::Items;
use bt_core::map::MapDecl;
use bt_core::memory::Memory;
use bt_core::port::Port;
use bt_core::step::{ObjectId, Op, Reply};
use run_objects::objects::{Objects, take_at};
use std::alloc::Global;
use std::marker::Model;
use std::snapshot::Snapshot;
use step_list::list::StepList;

/// Whose turn it is: its number, and how many steps there were when it began. Between `BEGIN` and `END` the turns are those
/// of the CPUs. No clock of the actor stands below the floor.
#[derive(Clone, Copy, Drop)]
pub struct Turn {
    pub among: bool,
    pub begun: usize,
    pub floor: u64,
    pub actor: u32,
    pub start: usize,
}

/// A run on one thread: its objects, the last stamp of each actor and of all, and the steps in the order in which they were made.
pub struct Running {
    pub cpus: u32,
    pub ticks: u32,
    pub maps: Snapshot<Items<MapDecl>>,
    pub objects: Objects,
    pub lasts: Vec<u64>,
    pub top: u64,
    pub steps: StepList,
    pub turn: Turn,
}

// Written out, so that it is one call wherever such a value is let go.
impl Drop for Running {
    fn drop(self) {
        let Self {
            cpus: _,
            ticks: _,
            maps: _,
            objects: _,
            lasts: _,
            top: _,
            steps: _,
            turn: _,
        } = self;
    }
}

impl Running {
    /// The objects and the steps.
    fn into_parts(self) -> (Objects, StepList)
        ensures objects { result.0 ≡ self.objects }
        ensures steps { result.1 ≡ self.steps }
    {
        let Self {
            cpus: _,
            ticks: _,
            maps: _,
            objects,
            lasts: _,
            top: _,
            steps,
            turn: _,
        } = self;
        (objects, steps)
    }
}

/// Makes the steps of the actor whose turn it is, and stamps each with one more than the greater of the actor's clock and the
/// object's.
#[derive(Drop)]
pub struct SerialPort {
    run: Running,
}

impl Model for SerialPort {
    ghost use Rattle.bt_run.specs.Runs.{Seen, seen_of, IsRunning as IsRun};

    ghost Value = { Seen };

    ghost view = { λ p. seen_of p.run };

    ghost invariant = { λ p. IsRun p.run };
}

/// One step of the actor whose turn it is. What the step has to keep of the operation is taken out of it. After [`Memory`] no step was made,
/// and the operation is as it was.
#[inline(always)]
fn make_step(alloc: Global, run: &mut Running, object: ObjectId, op: &mut Op) -> Result<(), Memory>
    requires run { IsRunning run.old }
    requires can { CanStep (setting_of (seen_of run.old)) object op.old }
    ensures run { IsRunning run.new }
    ensures world { world_of run.new ≡ world_of run.old }
    ensures turn { run.new.turn ≡ run.old.turn }
    ensures made { OnOk result (MakesStep (steps_in run.old.steps) (steps_in run.new.steps) run.old.turn.actor object op.old) }
    ensures replied { OnOk result (IsReplyOf run.old.maps.value object op.old (last_reply (steps_in run.new.steps))) }
    ensures none { OnErr result (steps_in run.new.steps ≡ steps_in run.old.steps) }
    ensures whole { OnErr result (op.new ≡ op.old) }
{
    run.steps.reserve(alloc)?;
    let actor = run.turn.actor;
    let clock = run.lasts[actor as usize].max(run.turn.floor);
    let mut reply = Reply::Done;
    let stamp = take_at(alloc, &mut run.objects, object, &*op, clock, &mut reply)?;
    run.lasts[actor as usize] = stamp;
    run.top = run.top.max(stamp);
    run.steps
        .push_reserved(actor, object, stamp, op, &mut reply);
    Ok(())
}

/// The reply of the last step.
fn last_of(steps: &StepList) -> &Reply
    requires { 0 < length (steps_in steps.now) }
    ensures { result.now ≡ last_reply (steps_in steps.now) }
{
    steps.last()
}

impl Port for SerialPort {
    type Home = Turn;

    ghost steps = { λ p. p.steps };

    ghost fixed = { λ p. record { setting = setting_of p; home = p.turn } };

    fn step(&mut self, alloc: Global, object: ObjectId, op: &mut Op) -> Result<(), Memory> {
        make_step(alloc, &mut self.run, object, op)
    }

    fn last(&self) -> &Reply {
        last_of(&self.run.steps)
    }
}

impl SerialPort {
    /// A run that begins, with the main actor's turn for `BEGIN`. Room for so many steps is asked for at once.
    pub fn new(
        alloc: Global,
        objects: Objects,
        maps: &Items<MapDecl>,
        cpus: u32,
        ticks: u32,
        expected: usize,
    ) -> Result<SerialPort, Memory>
        requires fine { All IsFineDecl maps.now }
        requires stand { Stand (record { cpus = cpus; ticks = ticks; maps = maps.now }) [] objects }
        ensures world { IfOk result (λ port. port.world ≡ record { cpus = cpus; ticks = ticks; maps = maps.now }) }
        ensures steps { IfOk result (λ port. port.steps ≡ []) }
        ensures turn { IfOk result (λ port. port.turn ≡ first_turn cpus) }
    {
        let lasts = vec![in alloc; 0u64; cpus as usize + 1]?;
        let mut steps = StepList::new(alloc);
        steps.expect(expected);
        Ok(SerialPort {
            run: Running {
                cpus,
                ticks,
                maps: Snapshot::of(maps),
                objects,
                lasts,
                top: 0,
                steps,
                turn: Turn {
                    among: false,
                    begun: 0,
                    floor: 0,
                    actor: cpus,
                    start: 0,
                },
            },
        })
    }

    /// Ends `BEGIN`: from now on the turns are those of the CPUs, of which there is one at least.
    pub fn go_to_cpus(&mut self)
        requires first { self.old.turn ≡ first_turn self.old.world.cpus }
        requires some { 0 < self.old.world.cpus }
        ensures world { self.new.world ≡ self.old.world }
        ensures steps { self.new.steps ≡ self.old.steps }
        ensures among { self.new.turn.among ≡ true }
        ensures begun { self.new.turn.begun ≡ length self.old.steps }
    {
        self.run.turn = Turn {
            among: true,
            begun: self.run.steps.len(),
            floor: self.run.top,
            actor: 0,
            start: self.run.steps.len(),
        };
    }

    /// Gives the turn to a CPU.
    pub fn turn_to(&mut self, cpu: u32)
        requires among { self.old.turn.among ≡ true }
        requires cpu { cpu < self.old.world.cpus }
        ensures world { self.new.world ≡ self.old.world }
        ensures steps { self.new.steps ≡ self.old.steps }
        ensures among { self.new.turn.among ≡ true }
        ensures begun { self.new.turn.begun ≡ self.old.turn.begun }
        ensures actor { self.new.turn.actor ≡ cpu }
        ensures start { self.new.turn.start ≡ length self.old.steps }
    {
        self.run.turn.actor = cpu;
        self.run.turn.start = self.run.steps.len();
    }

    /// Gives the turn to the main actor, for `END`.
    pub fn go_to_end(&mut self)
        requires among { self.old.turn.among ≡ true }
        ensures world { self.new.world ≡ self.old.world }
        ensures steps { self.new.steps ≡ self.old.steps }
        ensures begun { self.new.turn.begun ≡ self.old.turn.begun }
        ensures actor { self.new.turn.actor ≡ self.old.world.cpus }
        ensures start { self.new.turn.start ≡ length self.old.steps }
    {
        self.run.turn = Turn {
            among: false,
            begun: self.run.turn.begun,
            floor: self.run.top,
            actor: self.run.cpus,
            start: self.run.steps.len(),
        };
    }

    /// Holds at each moment. It does nothing.
    pub fn stands(&self)
        ensures { IsSeen self.now }
    {
        let _run = &self.run;
    }

    /// The objects and the steps.
    pub fn into_parts(self) -> (Objects, StepList)
        ensures { IsLeft self result.0 (steps_in result.1) }
    {
        let SerialPort { run } = self;
        run.into_parts()
    }
}
