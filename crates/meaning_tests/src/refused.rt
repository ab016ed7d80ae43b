// Lists that are no interleavings.
ghost use Rattle.bt_meaning.specs.Interleavings.{IsInterleaving};
ghost use Rattle.meaning_tests.specs.Intervals.{printing};
ghost use Rattle.meaning_tests.specs.Refused.{cut_short, early_end, from_the_future, one_left_out, too_early};
ghost use Rattle.meaning_tests.specs.Serial.{stopped_by_count};

// An answer must follow from the steps before it, each actor must make its whole program in its order, and END's steps come
// last.
fn these_are_none()
    ensures from_the_future { IsInterleaving printing from_the_future → ⊥ }
    ensures too_early { IsInterleaving printing too_early → ⊥ }
    ensures one_left_out { IsInterleaving printing one_left_out → ⊥ }
    ensures cut_short { IsInterleaving printing cut_short → ⊥ }
    ensures early_end { IsInterleaving stopped_by_count early_end → ⊥ }
{}

#[test]
fn lists_that_are_none() {
    these_are_none();
}
