// The clocks of actors, read off the steps so far.
ghost use Rattle.std.specs.Prelude.{◌≡◌, ◌+◌, ◌<◌, ◌≤◌, ◌++◌, ◌∷◌, ◌^◌, [], ℕ, List, length, IfOk};
ghost use Rattle.bt_core.specs.declared.step.Step.{Step};
ghost use Rattle.begun_meaning.specs.Begun.{clock_after};
ghost use Rattle.account_replay.specs.Clocks.{TellClocks};

use bt_core::memory::Memory;
use std::alloc::Global;

/// The greatest stamp of each actor, the last of which is the main one, and that of all.
pub struct Clocks {
    pub lasts: Vec<u64>,
    pub top: u64,
}

// Written out, so that it is one call wherever such a value is let go.
impl Drop for Clocks {
    fn drop(self) {
        let Self { lasts: _, top: _ } = self;
    }
}

impl Clocks {
    /// Those of so many CPUs and the main actor, before all steps.
    pub fn new(alloc: Global, cpus: u32) -> Result<Clocks, Memory>
        requires { cpus + 1 < 2 ^ 32 }
        ensures { IfOk result (λ clocks. TellClocks cpus [] clocks) }
    {
        let lasts = vec![in alloc; 0u64; cpus as usize + 1]?;
        Ok(Clocks { lasts, top: 0 })
    }

    /// The clock of an actor, where the main one has this number: the main actor's is that of all steps, a CPU's the greater one of
    /// its own and the main actor's.
    pub fn clock_of(&self, main: u32, actor: u32) -> u64
        requires known { actor ≤ main }
        requires count { length self.now.lasts.items ≡ main + 1 }
        ensures { (before : List Step) → TellClocks main before self.now → result ≡ clock_after main before actor }
    {
        if actor == main {
            self.top
        } else {
            self.lasts[main as usize].max(self.lasts[actor as usize])
        }
    }

    /// Notes a step of an actor.
    pub fn note(&mut self, actor: u32, stamp: u64)
        requires known { actor < length self.old.lasts.items }
        ensures count { length self.new.lasts.items ≡ length self.old.lasts.items }
        ensures told { (main : ℕ) (before : List Step) (s : Step) → s.actor ≡ actor → s.stamp ≡ stamp → TellClocks main before self.old →
            TellClocks main (before ++ s ∷ []) self.new }
    {
        let last = self.lasts[actor as usize];
        self.lasts[actor as usize] = last.max(stamp);
        self.top = self.top.max(stamp);
    }
}
