// The stamp of END's first step, in a list of three steps.
ghost use Rattle.std.specs.Prelude.{◌∷◌, []};
ghost use Rattle.weave.specs.Order.{InOrder};
ghost use Rattle.weave.specs.Woven.{IsWoven};
ghost use Rattle.weave_tests.specs.EndSteps.{steps_with, late_end, early_end};

// A list is woven where END's step comes behind the clocks of all actors, and not where it comes behind
// the main actor's own clock and its object's alone, though it is then in order too.
fn the_stamp_of_end_follows_all_clocks()
    ensures woven { IsWoven 1 1 (steps_with late_end) }
    ensures in_order { InOrder (steps_with early_end) }
    ensures not_woven { IsWoven 1 1 (steps_with early_end) → ⊥ }
{}

#[test]
fn an_early_end_is_not_woven() {
    the_stamp_of_end_follows_all_clocks();
}
