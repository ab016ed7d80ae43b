// Typed scripts over a recording: their interleavings are those of the runs of bodies that are written out.
ghost use Rattle.std.specs.Prelude.{◌≡◌, [], ◌∷◌};
ghost use Rattle.typed_tree.specs.declared.script.Typed.{Typed};
ghost use Rattle.bt_meaning.specs.Interleavings.{IsInterleaving};
ghost use Rattle.bt_meaning.specs.Serial.{serial_steps};
ghost use Rattle.bt_meaning.specs.Walks.{replay_of};
ghost use Rattle.meaning_tests.specs.Bodies.{clear_statement, print_statement};
ghost use Rattle.meaning_tests.specs.Intervals.{first_three, first_two, three_and_one, two_and_one, two_and_two, two_cpus, two_ticks};
ghost use Rattle.meaning_tests.specs.Scripts.{IsCounting};

// `print(@);` at each tick.
fn a_script_prints_its_counts()
    ensures two { (script : Typed) → IsCounting (print_statement ∷ []) script → IsInterleaving (replay_of script two_ticks two_cpus) first_two }
    ensures three { (script : Typed) → IsCounting (print_statement ∷ []) script → IsInterleaving (replay_of script two_ticks two_cpus) first_three }
    ensures serial { (script : Typed) → IsCounting (print_statement ∷ []) script → serial_steps (replay_of script two_ticks two_cpus) ≡ first_two }
{}

// `print(@); clear(@);` at each tick.
fn a_script_clears_its_counts()
    ensures two_and_two { (script : Typed) → IsCounting (print_statement ∷ clear_statement ∷ []) script →
        IsInterleaving (replay_of script two_ticks two_cpus) two_and_two }
    ensures three_and_one { (script : Typed) → IsCounting (print_statement ∷ clear_statement ∷ []) script →
        IsInterleaving (replay_of script two_ticks two_cpus) three_and_one }
    ensures two_and_one { (script : Typed) → IsCounting (print_statement ∷ clear_statement ∷ []) script →
        IsInterleaving (replay_of script two_ticks two_cpus) two_and_one }
    ensures serial { (script : Typed) → IsCounting (print_statement ∷ clear_statement ∷ []) script →
        serial_steps (replay_of script two_ticks two_cpus) ≡ two_and_two }
{}

#[test]
fn scripts_of_two_cpus() {
    a_script_prints_its_counts();
    a_script_clears_its_counts();
}
