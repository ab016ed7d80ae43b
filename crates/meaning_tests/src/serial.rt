// The list of the serial run and its text, of three scripts, and over recordings with marks of lost events.
ghost use Rattle.std.specs.Prelude.{◌≡◌, List, [], ◌∷◌, codes, map};
ghost use Rattle.bt_core.specs.declared.step.Step.{Step};
ghost use Rattle.typed_tree.specs.declared.script.Typed.{Typed};
ghost use Rattle.fmt_text.specs.declared.piece.Piece.TheVariants.{Literal};
ghost use Rattle.bt_meaning.specs.Prints.{printed_text};
ghost use Rattle.bt_meaning.specs.Serial.{serial_steps, unstamped};
ghost use Rattle.weave.specs.Lists.{stamp_of};
ghost use Rattle.weave.specs.Woven.{IsWoven};
ghost use Rattle.meaning_tests.specs.Marks.{marked_between, marked_twice, stopped_before, told_between, told_by_time, untold};
ghost use Rattle.meaning_tests.specs.Serial.{by_cpu_decl, by_second, counted_by_cpu, n_and_i, stopped_by_count, stopped_by_tick, until_count, until_tick};
ghost use Rattle.meaning_tests.specs.Written.{counts_decl};

// The one CPU stops at the first tick.
fn a_tick_stops()
    ensures steps { serial_steps stopped_by_tick ≡ until_tick }
    ensures text { (script : Typed) → script.maps ≡ counts_decl ∷ [] → printed_text script 1 until_tick ≡ codes "@: 1\n\n" }
{}

// The one CPU stops at its second event, and the bodies of `END` still run.
fn a_count_stops()
    ensures steps { serial_steps stopped_by_count ≡ until_count }
    ensures text { (script : Typed) → script.maps ≡ n_and_i → script.formats ≡ (Literal (codes "bye\n") ∷ []) ∷ [] →
        printed_text script 1 until_count ≡ codes "bye\n@n: 2\n\n@i: 2\n\n" }
{}

// A tick sees the number of the CPU that runs it, which is the last to cross it.
fn the_last_cpu_runs_ticks()
    ensures steps { serial_steps counted_by_cpu ≡ by_second }
    ensures text { (script : Typed) → script.maps ≡ by_cpu_decl ∷ [] → printed_text script 2 by_second ≡ codes "@[9]: 2\n\n" }
{}

// A mark is told of where it stands, and the three steps of the one CPU have the stamps 1, 2 and 3; behind an exit none is
// told of; and over two CPUs the earlier one is told of first.
fn marks_are_told()
    ensures between { serial_steps marked_between ≡ told_between }
    ensures between_text { (script : Typed) → script.maps ≡ counts_decl ∷ [] →
        printed_text script 1 told_between ≡ codes "WARNING: 5 events lost on cpu 0\n@: 2\n\n" }
    ensures stamps { (steps : List Step) → IsWoven 1 0 steps → map unstamped steps ≡ told_between → map stamp_of steps ≡ 1 ∷ 2 ∷ 3 ∷ [] }
    ensures exit { serial_steps stopped_before ≡ untold }
    ensures exit_text { (script : Typed) → script.maps ≡ [] → printed_text script 1 untold ≡ [] }
    ensures two { serial_steps marked_twice ≡ told_by_time }
    ensures two_text { (script : Typed) → script.maps ≡ [] → printed_text script 2 told_by_time ≡
        codes "WARNING: 2 events lost on cpu 1\nWARNING: 1 events lost on cpu 0\n" }
{}

#[test]
fn serial_runs() {
    a_tick_stops();
    a_count_stops();
    the_last_cpu_runs_ticks();
    marks_are_told();
}
