// Two CPUs whose events are counted, and ticks that print the counts, or print and clear them.
ghost use Rattle.std.specs.Prelude.{◌≡◌, [], ◌∷◌, codes};
ghost use Rattle.typed_tree.specs.declared.script.Typed.{Typed};
ghost use Rattle.bt_meaning.specs.Instructions.{instructions_of};
ghost use Rattle.bt_meaning.specs.Interleavings.{IsInterleaving};
ghost use Rattle.bt_meaning.specs.Prints.{printed_text};
ghost use Rattle.bt_meaning.specs.Serial.{serial_steps};
ghost use Rattle.meaning_tests.specs.Intervals.{first_three, first_two, printing, printing_and_clearing, three_and_one, two_and_one, two_and_two};
ghost use Rattle.meaning_tests.specs.Written.{counts_decl};

// The first print shows two counts, as in the serial run.
fn the_first_print_may_show_two()
    ensures list { IsInterleaving printing first_two }
    ensures serial { serial_steps printing ≡ first_two }
    ensures text { (script : Typed) → script.maps ≡ counts_decl ∷ [] → printed_text script 2 first_two ≡ codes "@: 2\n\n@: 4\n\n@: 4\n\n" }
{}

// Or three, where a CPU is at its second event before the other one has crossed the tick.
fn the_first_print_may_show_three()
    ensures list { IsInterleaving printing first_three }
    ensures text { (script : Typed) → script.maps ≡ counts_decl ∷ [] → printed_text script 2 first_three ≡ codes "@: 3\n\n@: 4\n\n@: 4\n\n" }
{}

// Four counts of 5 instructions and two prints of 20, whatever is printed.
fn sums_of_instructions_stay()
    ensures two { instructions_of printing first_two ≡ 60 }
    ensures three { instructions_of printing first_three ≡ 60 }
{}

// The prints show 2 and 2, as in the serial run, or 3 and 1.
fn clears_keep_counts_apart()
    ensures two_and_two { IsInterleaving printing_and_clearing two_and_two }
    ensures serial { serial_steps printing_and_clearing ≡ two_and_two }
    ensures two_and_two_text { (script : Typed) → script.maps ≡ counts_decl ∷ [] → printed_text script 2 two_and_two ≡ codes "@: 2\n\n@: 2\n\n" }
    ensures three_and_one { IsInterleaving printing_and_clearing three_and_one }
    ensures three_and_one_text { (script : Typed) → script.maps ≡ counts_decl ∷ [] → printed_text script 2 three_and_one ≡ codes "@: 3\n\n@: 1\n\n" }
{}

// Or 2 and 1, where an event is counted between the read of its table and the clear of it.
fn a_clear_may_lose_a_count()
    ensures list { IsInterleaving printing_and_clearing two_and_one }
    ensures text { (script : Typed) → script.maps ≡ counts_decl ∷ [] → printed_text script 2 two_and_one ≡ codes "@: 2\n\n@: 1\n\n" }
{}

#[test]
fn interval_runs() {
    the_first_print_may_show_two();
    the_first_print_may_show_three();
    sums_of_instructions_stay();
    clears_keep_counts_apart();
    a_clear_may_lose_a_count();
}
