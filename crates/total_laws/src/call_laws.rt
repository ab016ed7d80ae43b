// Laws of the calls of programs.
ghost use Rattle.std.specs.Prelude.{ℕ, List};
ghost use Rattle.std.specs.List.{AllByRecursion};
ghost use Rattle.bt_ast.specs.declared.attached.Attached.{Attached};
ghost use Rattle.bt_core.specs.declared.step.Step.{Step};
ghost use Rattle.recordings.specs.declared.recording.Recording.{Recording};
ghost use Rattle.typed_tree.specs.declared.script.Typed.{Typed};
ghost use Rattle.actor_plan.specs.Plans.{AsksOf};
ghost use Rattle.bt_meaning.specs.Interleavings.{IsInterleaving};
ghost use Rattle.bt_meaning.specs.Jobs.{IsJob};
ghost use Rattle.bt_meaning.specs.Walks.{replay_of};
ghost use Rattle.begun_meaning.specs.Begun.{program_of};
ghost use Rattle.total_laws.specs.Calls.{IsProgramCall, IsProgramStep};

/// Under replies of the kinds that the operations have, each actor of a script makes each operation under a key at the key's part, and
/// adds at its own tables alone. So who knows the actor and the operation knows the part and the tables.
pub fn programs_make_such_calls()
    ensures { (script : Typed) (attached : Attached) (r : Recording) → IsJob script attached r → (actor : ℕ) →
        AsksOf (IsProgramCall actor) script.maps (program_of (replay_of script attached r) actor) }
{}

/// So in an interleaving each step makes such an operation of its own actor.
pub fn steps_make_such_calls()
    ensures { (script : Typed) (attached : Attached) (r : Recording) (steps : List Step) → IsJob script attached r →
        IsInterleaving (replay_of script attached r) steps → AllByRecursion IsProgramStep steps }
{
    bt_meaning::laws::steps_are_own();
}
