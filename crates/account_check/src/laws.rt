// Laws of true accounts.
ghost use Rattle.std.specs.Prelude.{◌≡◌, ◌<◌, ◌^◌, ℕ, List, length};
ghost use Rattle.std.specs.List.{AllByRecursion};
ghost use Rattle.bt_ast.specs.declared.attached.Attached.{Attached};
ghost use Rattle.bt_core.specs.declared.step.Step.{Step};
ghost use Rattle.recordings.specs.declared.recording.Recording.{Recording};
ghost use Rattle.typed_tree.specs.declared.script.Typed.{Typed};
ghost use Rattle.account_format.specs.Entries.{FitsStep};
ghost use Rattle.account_format.specs.Accounts.{account_bytes};
ghost use Rattle.bt_meaning.specs.Interleavings.{IsReplayed};
ghost use Rattle.bt_meaning.specs.Jobs.{IsJob};
ghost use Rattle.bt_meaning.specs.Prints.{printed_text};
ghost use Rattle.bt_meaning.specs.Replays.{cpus_of};
ghost use Rattle.bt_meaning.specs.Walks.{replay_of};
ghost use Rattle.account_check.specs.Accounts.{IsTrueAccount};

use total_laws::call_laws::programs_make_such_calls;

/// An account is true of one list of steps at most. Nothing runs.
pub fn one_account()
    ensures { (script : Typed) (attached : Attached) (r : Recording) (bytes : List ℕ) (one other : List Step) → IsJob script attached r →
        IsTrueAccount script attached r bytes one → IsTrueAccount script attached r bytes other → one ≡ other }
{
    programs_make_such_calls();
}

/// The account of the steps of a run and of what they print is true of these steps, where its numbers are in their ranges. Nothing runs.
pub fn accounts_of_runs_are_true()
    ensures { (script : Typed) (attached : Attached) (r : Recording) (steps : List Step) → IsJob script attached r →
        let p = replay_of script attached r in let text = printed_text script (cpus_of p) steps in
        IsReplayed p steps → AllByRecursion FitsStep steps → length steps < 2 ^ 64 → length text < 2 ^ 64 →
        IsTrueAccount script attached r (account_bytes steps text) steps }
{}
