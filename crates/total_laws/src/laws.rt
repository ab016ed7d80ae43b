// Laws of runs that only add.
ghost use Rattle.std.specs.Prelude.{◌≡◌, List, length};
ghost use Rattle.bt_ast.specs.declared.attached.Attached.{Attached};
ghost use Rattle.bt_core.specs.declared.step.Step.{Step};
ghost use Rattle.recordings.specs.declared.recording.Recording.{Recording};
ghost use Rattle.typed_tree.specs.declared.script.Typed.{Typed};
ghost use Rattle.bt_meaning.specs.Interleavings.{IsInterleaving};
ghost use Rattle.bt_meaning.specs.Walks.{replay_of};
ghost use Rattle.total_laws.specs.Ends.{IsAddingRun, EndsWithTotals, EndsWithSameMaps, TicksUseNoCpu, ReadsSeeAllBefore};

/// A script that only adds and prints ends with exact totals. In each interleaving in which no map has more than 4,096 keys in all, the
/// printed text is that of the emitted items and then of exactly the maps of the totals: under each key the aggregate of all numbers
/// that `BEGIN`, the events of each CPU, the ticks and `END` add to it, each tick as the CPU runs it that was the last to cross it. Each
/// map that is not empty has its empty line, and there is no warning of lost updates.
pub fn totals_are_exact()
    ensures { (script : Typed) (attached : Attached) (r : Recording) (steps : List Step) → IsAddingRun script attached r steps →
        EndsWithTotals script attached r steps }
{}

/// Where moreover no body of a tick uses `cpu`, every other interleaving ends with totals too, and with the same maps.
pub fn totals_are_the_same()
    ensures { (script : Typed) (attached : Attached) (r : Recording) (steps others : List Step) → IsAddingRun script attached r steps →
        TicksUseNoCpu script attached → IsInterleaving (replay_of script attached r) others → EndsWithSameMaps script attached r steps others }
{}

/// In such an interleaving each read of a map at a CPU's tables that is made after the last crossing of a tick, and so each that is made
/// in the tick's body, answers for each key the aggregate of a beginning of what the CPU adds there; and this beginning holds all that
/// the CPU did for its events with a time below the tick's.
pub fn reads_are_beginnings()
    ensures { (script : Typed) (attached : Attached) (r : Recording) (steps : List Step) → IsAddingRun script attached r steps →
        ReadsSeeAllBefore (replay_of script attached r) steps }
{
    bt_meaning::laws::steps_are_own();
}
