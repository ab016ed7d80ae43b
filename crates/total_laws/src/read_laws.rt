// What reads see while others add.
ghost use Rattle.std.specs.Prelude.{List};
ghost use Rattle.bt_ast.specs.declared.attached.Attached.{Attached};
ghost use Rattle.bt_core.specs.declared.step.Step.{Step};
ghost use Rattle.recordings.specs.declared.recording.Recording.{Recording};
ghost use Rattle.typed_tree.specs.declared.script.Typed.{Typed};
ghost use Rattle.bt_meaning.specs.Interleavings.{IsInterleaving};
ghost use Rattle.bt_meaning.specs.Jobs.{IsJob};
ghost use Rattle.bt_meaning.specs.Replays.{Replay};
ghost use Rattle.bt_meaning.specs.Walks.{replay_of};
ghost use Rattle.total_laws.specs.Reads.{AddsAreOwn, ReadsSeeBeginnings};

/// In an interleaving, a read at an actor's tables sees a beginning of all that the actor adds there, and an earlier read there saw no
/// more. Its reply is the answer after what was added, cleared and zeroed there before it; earlier reads change nothing. So a read at
/// a table never sees less of its CPU than an earlier one saw, apart from what was cleared, zeroed or lost.
pub fn reads_see_beginnings()
    ensures { (p : Replay) (steps : List Step) → IsInterleaving p steps → ReadsSeeBeginnings p steps }
{}

/// In an interleaving of a script over a recording, what is added at an actor's tables is added by the actor itself: by the CPU, or by the
/// main actor at its own. So what a read there answers over is what the actor itself added before, and what was cleared and zeroed.
pub fn adds_are_own()
    ensures { (script : Typed) (attached : Attached) (r : Recording) (steps : List Step) → IsJob script attached r →
        IsInterleaving (replay_of script attached r) steps → AddsAreOwn steps }
{
    crate::call_laws::steps_make_such_calls();
}
