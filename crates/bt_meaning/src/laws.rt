// Laws of interleavings.
ghost use Rattle.std.specs.Prelude.{ℕ, List};
ghost use Rattle.bt_ast.specs.declared.attached.Attached.{Attached};
ghost use Rattle.bt_core.specs.declared.context.Context.{Context};
ghost use Rattle.bt_core.specs.declared.step.Step.{Step};
ghost use Rattle.recordings.specs.declared.recording.Recording.{Recording};
ghost use Rattle.recordings.specs.Recordings.{IsValidRecording};
ghost use Rattle.typed_tree.specs.declared.body.TypedBody.{TypedBody};
ghost use Rattle.typed_tree.specs.declared.script.Typed.{Typed};
ghost use Rattle.actor_plan.specs.Agendas.{AreInTurn};
ghost use Rattle.walk_meaning.specs.Walk.{walk};
ghost use Rattle.bt_meaning.specs.Interleavings.{IsInterleaving};
ghost use Rattle.bt_meaning.specs.Jobs.{IsJob};
ghost use Rattle.bt_meaning.specs.OwnSteps.{IsOwnStep};
ghost use Rattle.std.specs.List.{AllByRecursion};
ghost use Rattle.bt_meaning.specs.Replays.{PlansAreOwn, Replay};
ghost use Rattle.bt_meaning.specs.Serial.{serial_steps};
ghost use Rattle.bt_meaning.specs.Ticks.{BodiesOnlyStop, OnlyStops, TicksComeAfter};
ghost use Rattle.bt_meaning.specs.Walks.{replay_of};

/// The list of the serial run is an interleaving: of any recording that is valid, ticks that stand in their order, and plans that
/// are those of their actors; so of a script over a recording.
pub fn serial_list_is_an_interleaving()
    ensures any { (p : Replay) → IsValidRecording p.recording → AreInTurn p.attached.ticks → PlansAreOwn p → IsInterleaving p (serial_steps p) }
    ensures script { (script : Typed) (attached : Attached) (r : Recording) → IsJob script attached r →
        IsInterleaving (replay_of script attached r) (serial_steps (replay_of script attached r)) }
{}

/// Whatever is replied, the walk of a body makes no operation at the clock but a stop.
pub fn walks_only_stop()
    ensures { (body : TypedBody) (context : Context) (payload : List ℕ) (actor actors : ℕ) → OnlyStops (walk body context payload actor actors) }
{}

/// In an interleaving, where a CPU is the last to cross a tick, every CPU has done before all items that stand before the tick in
/// its agenda, and so all its entries with a smaller time; and next that CPU runs the tick's body. It holds of all bodies that
/// make no operation at the clock but a stop; so of a script over a recording.
pub fn ticks_come_after()
    ensures any { (p : Replay) (steps : List Step) → IsValidRecording p.recording → AreInTurn p.attached.ticks → PlansAreOwn p → BodiesOnlyStop p →
        IsInterleaving p steps → TicksComeAfter p steps }
    ensures script { (script : Typed) (attached : Attached) (r : Recording) (steps : List Step) → IsJob script attached r →
        IsInterleaving (replay_of script attached r) steps → TicksComeAfter (replay_of script attached r) steps }
{}

/// In an interleaving of a script each step is one that its object takes, its reply is of the kind that its operation has, and what it
/// emits is an item of the script's formats and maps, so that it has a text.
pub fn steps_are_own()
    ensures { (script : Typed) (attached : Attached) (r : Recording) (steps : List Step) → IsJob script attached r →
        IsInterleaving (replay_of script attached r) steps → AllByRecursion (IsOwnStep script attached r) steps }
{
    map_rows::laws::merged_rows_fit();
}
