// Laws of lists that were followed for all actors.
ghost use Rattle.std.specs.Prelude.{◌≡◌, ◌<◌, ◌≤◌, ℕ, List, IsTrue, false, length, map, min, slice_index_or, take};
ghost use Rattle.std.specs.List.{AllByRecursion};
ghost use Rattle.bt_core.specs.declared.step.Step.{Step};
ghost use Rattle.bt_core.specs.Steps.{AtEach, RepliesFollow};
ghost use Rattle.bt_meaning.specs.Replays.{answers_of, cpus_of, Replay};
ghost use Rattle.step_entries.specs.Blank.{blank};
ghost use Rattle.begun_meaning.specs.Begun.{AreAllWhole, IsBegun};
ghost use Rattle.begun_meaning.specs.Parts.{IsStampedAfter, NotBeforeLast};
ghost use Rattle.begun_meaning.specs.Wrong.{IsWrongStep};
ghost use Rattle.account_follow.specs.declared.follow.Reached.{Reached as Reach};
ghost use Rattle.account_steps.specs.Limits.{IsLimit};
ghost use Rattle.account_steps.specs.Stops.{AllMayStand, AreReached, MayStand};

/// Up to a place before which each step may stand where it stands, a followed list can be made, if its replies, stamps and order are
/// right so far.
pub fn lists_can_be_made_so_far()
    ensures { (p : Replay) (list : List Step) (each : List Reach) (begin cpus : Reach) (end : ℕ) → AreReached p list each begin cpus →
        AllByRecursion (λ (s : Step). s.actor ≤ cpus_of p) list → end ≤ length list → AllMayStand (cpus_of p) each begin cpus end list →
        RepliesFollow (answers_of p) (take end list) → AtEach (IsStampedAfter (cpus_of p)) (take end list) → AtEach NotBeforeLast (take end list) →
        IsBegun p (take end list) }
{}

/// A followed list goes no further than to its first step that may not stand where it stands, or to its end.
pub fn lists_stop_there()
    ensures { (p : Replay) (list : List Step) (each : List Reach) (begin cpus : Reach) (end : ℕ) → AreReached p list each begin cpus →
        AllByRecursion (λ (s : Step). s.actor ≤ cpus_of p) list → end ≤ length list → AllMayStand (cpus_of p) each begin cpus end list →
        ((d : Step) → end < length list → MayStand (cpus_of p) each begin cpus end (slice_index_or list end d) → ⊥) → IsLimit p list end }
{}

/// Of two places that a list goes no further than, the lesser one is such a place.
pub fn least_place_is_limit()
    ensures { (p : Replay) (list : List Step) (one other : ℕ) → IsLimit p list one → IsLimit p list other → IsLimit p list (min one other) }
{}

/// Where a list can be made so far and no further, the entry there is wrong.
pub fn limits_are_wrong_steps()
    ensures { (p : Replay) (list : List Step) (place : ℕ) (d : Step) → IsLimit p list place → IsBegun p (take place list) → place < length list →
        IsWrongStep p (map blank list) place }
{}

/// Where each step of a followed list may stand where it stands, each actor's program is whole if all actors made all their steps on
/// the list, and else some program isn't.
pub fn lists_are_whole_or_not()
    ensures whole { (p : Replay) (list : List Step) (each : List Reach) (begin cpus : Reach) → AreReached p list each begin cpus →
        AllByRecursion (λ (s : Step). s.actor ≤ cpus_of p) list → AllMayStand (cpus_of p) each begin cpus (length list) list →
        ((actor : ℕ) (d : Reach) → actor < length each → IsTrue (slice_index_or each actor d).on_list) → AreAllWhole p list }
    ensures unfinished { (p : Replay) (list : List Step) (each : List Reach) (begin cpus : Reach) → AreReached p list each begin cpus →
        AllByRecursion (λ (s : Step). s.actor ≤ cpus_of p) list → AllMayStand (cpus_of p) each begin cpus (length list) list →
        (actor : ℕ) (d : Reach) → actor < length each → (slice_index_or each actor d).on_list ≡ false → AreAllWhole p list → ⊥ }
{}
