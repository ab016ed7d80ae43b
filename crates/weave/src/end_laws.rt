// Laws of the ends of runs.
ghost use Rattle.std.specs.Prelude.{◌++◌, ◌∷◌, [], List};
ghost use Rattle.std.specs.List.Sorted.{IsPermutation};
ghost use Rattle.bt_core.specs.declared.step.ObjectId.{ObjectId};
ghost use Rattle.bt_core.specs.declared.step.Op.{Op};
ghost use Rattle.bt_core.specs.declared.step.Reply.{Reply};
ghost use Rattle.bt_core.specs.declared.step.Step.{Step};
ghost use Rattle.turn_lock.specs.declared.entry.Entry.{Entry};
ghost use Rattle.stamped.specs.declared.trace.Trace.{Trace};
ghost use Rattle.weave.specs.Order.{InOrder};
ghost use Rattle.weave.specs.Traces.{all_steps, HaveHistories};
ghost use Rattle.weave.specs.Ends.{HaveEnded, HasParts};

/// Where the CPUs' traces begin at the clock after `BEGIN`, and the main actor's clock was raised to the
/// latest of theirs before `END`, the steps of all traces in order are woven: they have the main actor's
/// steps and each CPU's, whole and in their order, and each reply follows.
pub fn ends_are_woven()
    ensures { (answer : ObjectId → List Op → Op → Reply) (begun finished : List Step) (cpus : List Trace) (main : Trace)
        (history : ObjectId → List Entry) (steps : List Step) → HaveEnded begun finished cpus main →
        HaveHistories answer (cpus ++ main ∷ []) history → IsPermutation (all_steps (cpus ++ main ∷ [])) steps → InOrder steps →
        HasParts answer begun finished cpus steps }
{}
