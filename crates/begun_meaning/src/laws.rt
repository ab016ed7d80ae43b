// Laws of lists that can be made.
ghost use Rattle.std.specs.Prelude.{◌≡◌, ◌<◌, ◌++◌, ◌∷◌, ℕ, List, length, map};
ghost use Rattle.bt_core.specs.declared.map.MapDecl.{MapDecl};
ghost use Rattle.bt_core.specs.declared.step.ObjectId.{ObjectId};
ghost use Rattle.bt_core.specs.declared.step.Op.{Op};
ghost use Rattle.bt_core.specs.declared.step.Step.{Step};
ghost use Rattle.agg_core.specs.Answers.{answer};
ghost use Rattle.weave.specs.Woven.{actor_clock, StandsBetween};
ghost use Rattle.bt_meaning.specs.Interleavings.{IsReplayed};
ghost use Rattle.bt_meaning.specs.Replays.{PlansAreOwn, Replay};
ghost use Rattle.step_entries.specs.Blank.{blank, blank_op};
ghost use Rattle.begun_meaning.specs.Begun.{AreAllWhole, clock_after, IsBegun};
ghost use Rattle.begun_meaning.specs.Parts.{HasParts};
ghost use Rattle.begun_meaning.specs.Wrong.{IsUnfinished, IsWrongStep, NoneFollows};

/// The lists that can be made and in which each actor's program is whole are those that a run hands back.
pub fn whole_lists_are_replayed()
    ensures whole { (p : Replay) (steps : List Step) → PlansAreOwn p → IsBegun p steps → AreAllWhole p steps → IsReplayed p steps }
    ensures begun { (p : Replay) (steps : List Step) → PlansAreOwn p → IsReplayed p steps → IsBegun p steps }
    ensures all_whole { (p : Replay) (steps : List Step) → PlansAreOwn p → IsReplayed p steps → AreAllWhole p steps }
{}

/// A list can be made where each actor's steps begin its program, its replies, stamps and order are right, and BEGIN and END stand
/// where they may.
pub fn lists_with_parts_are_begun()
    ensures { (p : Replay) (steps : List Step) → HasParts p steps → IsBegun p steps }
{}

/// What an object replies does not depend on what was emitted, before or now.
pub fn replies_tell_no_items()
    ensures { (maps : List MapDecl) (cpus : ℕ) (object : ObjectId) (before others : List Op) (op other : Op) →
        map blank_op before ≡ map blank_op others → blank_op op ≡ blank_op other → answer maps cpus object before op ≡ answer maps cpus object others other }
{}

/// Entries tell at most one list that can be made.
pub fn entries_tell_one_list()
    ensures { (p : Replay) (one other : List Step) → IsBegun p one → IsBegun p other → map blank one ≡ map blank other → one ≡ other }
{}

/// Where BEGIN's steps come before those of the CPUs and END's after them, an actor's clock needs no knowledge of how long BEGIN is.
pub fn clocks_need_no_length()
    ensures { (main begun : ℕ) (steps : List Step) → StandsBetween main begun steps → (before : List Step) (s : Step) (after : List Step) →
        steps ≡ before ++ s ∷ after → clock_after main before s.actor ≡ actor_clock main begun steps before s }
{}

/// An entry is wrong where those before it tell a list that can be made, which no step that is told so can follow.
pub fn steps_that_none_follow_are_wrong()
    ensures { (p : Replay) (before : List Step) (s : Step) (more : List Step) → IsBegun p before → NoneFollows p before s →
        IsWrongStep p (map blank before ++ blank s ∷ more) (length before) }
{}

/// Of entries at most one thing is wrong: they have one wrong step at most; where they tell a list that can be made, none of them is
/// wrong; and where each program is whole in that list, they are not unfinished.
pub fn one_thing_is_wrong()
    ensures one { (p : Replay) (entries : List Step) (i j : ℕ) → IsWrongStep p entries i → IsWrongStep p entries j → i ≡ j }
    ensures none { (p : Replay) (made : List Step) (i : ℕ) → IsBegun p made → IsWrongStep p (map blank made) i → ⊥ }
    ensures not_both { (p : Replay) (made : List Step) → IsBegun p made → AreAllWhole p made → IsUnfinished p (map blank made) → ⊥ }
{}
