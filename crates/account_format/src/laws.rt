// Laws of accounts.
ghost use Rattle.std.specs.Prelude.{◌≡◌, ◌<◌, ◌^◌, ℕ, List, length, map};
ghost use Rattle.std.specs.List.{AllByRecursion};
ghost use Rattle.bt_core.specs.declared.step.Step.{Step};
ghost use Rattle.bt_core.specs.Ports.{Setting};
ghost use Rattle.step_entries.specs.Blank.{blank};
ghost use Rattle.account_format.specs.Entries.{IsTold};
ghost use Rattle.account_format.specs.Accounts.{account_bytes};

/// Lists of steps that entries can tell of, and texts, have one account only where the steps are the same but for their replies and their
/// items, and the texts are the same. Nothing runs.
pub fn accounts_tell_lists()
    ensures { (setting : Setting) (steps others : List Step) (text other : List ℕ)
        → AllByRecursion (IsTold setting) steps → AllByRecursion (IsTold setting) others
        → length steps < 2 ^ 64 → length others < 2 ^ 64 → length text < 2 ^ 64 → length other < 2 ^ 64
        → account_bytes steps text ≡ account_bytes others other → (map blank steps ≡ map blank others) × (text ≡ other) }
{}
