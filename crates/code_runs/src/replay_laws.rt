// Replays that agree.
ghost use Rattle.std.specs.Prelude.{◌≡◌, List};
ghost use Rattle.bt_ast.specs.declared.attached.Attached.{Attached};
ghost use Rattle.bt_core.specs.declared.step.Step.{Step};
ghost use Rattle.recordings.specs.declared.recording.Recording.{Recording};
ghost use Rattle.recordings.specs.Recordings.{IsValidRecording};
ghost use Rattle.typed_tree.specs.declared.script.Typed.{Typed};
ghost use Rattle.actor_plan.specs.Agendas.{AreInTurn};
ghost use Rattle.bt_meaning.specs.Interleavings.{IsInterleaving, IsReplayed};
ghost use Rattle.bt_meaning.specs.Jobs.{IsJob};
ghost use Rattle.bt_meaning.specs.Prints.{printed_text};
ghost use Rattle.bt_meaning.specs.Replays.{Replay, cpus_of};
ghost use Rattle.bt_meaning.specs.Serial.{serial_steps};
ghost use Rattle.bt_meaning.specs.Walks.{replay_of};
ghost use Rattle.code_runs.specs.Agree.{AllReplies, ReplaysAgree};
ghost use Rattle.code_runs.specs.Asking.{AsksObjects};
ghost use Rattle.code_runs.specs.HeldReplies.{IsHeldReply};

/// Where the bodies of two replays ask the same and one of the two asks only what its objects take, each interleaving of the one
/// is one of the other, with its stamps, and the list of the serial run is the same. It is enough that they ask the same under replies
/// whose values are as a program holds them, as those in a program's list of steps are. What the runs of the bodies count may differ.
pub fn replays_agree()
    ensures there { (p q : Replay) (steps : List Step) → ReplaysAgree IsHeldReply p q → AsksObjects p → AllReplies IsHeldReply steps →
        IsInterleaving p steps → IsInterleaving q steps }
    ensures back { (p q : Replay) (steps : List Step) → ReplaysAgree IsHeldReply p q → AsksObjects p → AllReplies IsHeldReply steps →
        IsInterleaving q steps → IsInterleaving p steps }
    ensures replayed_there { (p q : Replay) (steps : List Step) → ReplaysAgree IsHeldReply p q → AsksObjects p →
        AllReplies IsHeldReply steps → IsReplayed p steps → IsReplayed q steps }
    ensures replayed_back { (p q : Replay) (steps : List Step) → ReplaysAgree IsHeldReply p q → AsksObjects p →
        AllReplies IsHeldReply steps → IsReplayed q steps → IsReplayed p steps }
    ensures serial { (p q : Replay) → IsValidRecording p.recording → AreInTurn p.attached.ticks → ReplaysAgree IsHeldReply p q →
        AsksObjects p → AllReplies IsHeldReply (serial_steps q) → serial_steps q ≡ serial_steps p }
    ensures printed { (p q : Replay) (script : Typed) (steps : List Step) → ReplaysAgree IsHeldReply p q →
        printed_text script (cpus_of p) steps ≡ printed_text script (cpus_of q) steps }
{}

/// A script over a recording asks only what its objects take.
pub fn scripts_ask_objects()
    ensures { (script : Typed) (attached : Attached) (r : Recording) → IsJob script attached r → AsksObjects (replay_of script attached r) }
{}

/// So where what runs in place of a script's walks asks the same as they do, its interleavings are those of the script over the
/// recording, and so is the list of the serial run.
pub fn agreeing_runs_mean_the_script()
    ensures interleavings { (script : Typed) (attached : Attached) (r : Recording) (q : Replay) (steps : List Step) →
        IsJob script attached r → ReplaysAgree IsHeldReply (replay_of script attached r) q → AllReplies IsHeldReply steps → IsInterleaving q steps →
        IsInterleaving (replay_of script attached r) steps }
    ensures replayed { (script : Typed) (attached : Attached) (r : Recording) (q : Replay) (steps : List Step) →
        IsJob script attached r → ReplaysAgree IsHeldReply (replay_of script attached r) q → AllReplies IsHeldReply steps → IsReplayed q steps →
        IsReplayed (replay_of script attached r) steps }
    ensures serial { (script : Typed) (attached : Attached) (r : Recording) (q : Replay) →
        IsJob script attached r → ReplaysAgree IsHeldReply (replay_of script attached r) q → AllReplies IsHeldReply (serial_steps q) →
        serial_steps q ≡ serial_steps (replay_of script attached r) }
{}
