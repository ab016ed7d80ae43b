// What runs by code mean.
ghost use Rattle.std.specs.Prelude.{◌≡◌, ◌≤◌, ℕ, List, length};
ghost use Rattle.std.specs.List.{AllByRecursion};
ghost use Rattle.bt_ast.specs.declared.attached.Attached.{Attached};
ghost use Rattle.bt_core.specs.declared.limits.TheConstants.{CODE_SLOTS};
ghost use Rattle.bt_core.specs.declared.step.Step.{Step};
ghost use Rattle.bpf_insn.specs.declared.insn.Insn.{Insn};
ghost use Rattle.recordings.specs.declared.recording.Recording.{Recording};
ghost use Rattle.typed_tree.specs.declared.script.Typed.{Typed};
ghost use Rattle.actor_plan.specs.Plans.{TakesFew};
ghost use Rattle.bt_meaning.specs.Interleavings.{IsReplayed};
ghost use Rattle.bt_meaning.specs.Jobs.{IsJob};
ghost use Rattle.bt_meaning.specs.Serial.{serial_steps};
ghost use Rattle.bt_meaning.specs.Walks.{replay_of};
ghost use Rattle.code_runs.specs.Agree.{AllReplies, ReplaysAgree};
ghost use Rattle.code_runs.specs.HeldReplies.{IsHeldReply};
ghost use Rattle.code_runs.specs.Coding.{code_replay, coding};
ghost use Rattle.code_runs.specs.Kept.{AreHeld, KeepBodies};

/// Where each body of a script is run by code that keeps it, what is run asks what the walks ask. So what is replayed is a replay of the
/// script over the recording, and the list of the serial run is the script's, where the replies in the steps are as a program holds them.
pub fn code_means_walks()
    ensures agree { (script : Typed) (codes : List (List Insn)) (attached : Attached) (r : Recording) → IsJob script attached r → AreHeld attached r →
        KeepBodies script codes → ReplaysAgree IsHeldReply (replay_of script attached r) (code_replay script codes attached r) }
    ensures replayed { (script : Typed) (codes : List (List Insn)) (attached : Attached) (r : Recording) (steps : List Step) → IsJob script attached r →
        AreHeld attached r → KeepBodies script codes → AllReplies IsHeldReply steps → IsReplayed (code_replay script codes attached r) steps →
        IsReplayed (replay_of script attached r) steps }
    ensures serial { (script : Typed) (codes : List (List Insn)) (attached : Attached) (r : Recording) → IsJob script attached r → AreHeld attached r →
        KeepBodies script codes → AllReplies IsHeldReply (serial_steps (code_replay script codes attached r)) →
        serial_steps (code_replay script codes attached r) ≡ serial_steps (replay_of script attached r) }
{}

/// Codes of at most 4,096 slots take few instructions, whatever is replied.
pub fn codes_take_few()
    ensures { (script : Typed) (codes : List (List Insn)) (actors actor : ℕ) → AllByRecursion (λ (code : List Insn). length code ≤ CODE_SLOTS) codes →
        TakesFew (coding script codes actors actor) }
{}
