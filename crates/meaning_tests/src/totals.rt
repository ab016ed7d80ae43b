// What maps add up to, and which scripts only add and print.
ghost use Rattle.std.specs.Prelude.{◌≡◌, ℕ, pos, [], ◌∷◌};
ghost use Rattle.bt_core.specs.declared.item.Cell.TheVariants.{Agg as Aggregate};
ghost use Rattle.bt_core.specs.declared.value.Value.TheVariants.{Int};
ghost use Rattle.typed_tree.specs.declared.script.Typed.{Typed};
ghost use Rattle.bt_meaning.specs.Totals.{IsAggregationOnly, totals, who};
ghost use Rattle.meaning_tests.specs.Bodies.{clear_statement, print_statement, read_statement};
ghost use Rattle.meaning_tests.specs.Intervals.{first_three, printing};
ghost use Rattle.meaning_tests.specs.Scripts.{IsCounting};
ghost use Rattle.meaning_tests.specs.Serial.{by_second, counted_by_cpu};
ghost use Rattle.meaning_tests.specs.Written.{counted, counts, row_of};

// Four events are counted, whoever runs the ticks.
fn counts_add_up()
    ensures who { who first_three 0 ≡ 1 }
    ensures total { totals printing counts (who first_three) ≡ row_of 4 }
    ensures other { totals printing counts (λ (tick : ℕ). 0) ≡ row_of 4 }
{}

// Where a tick counts by its CPU, it is the one that runs it.
fn ticks_count_for_who_runs_them()
    ensures last { totals counted_by_cpu counts (who by_second) ≡ (Int (pos 9) ∷ [], Aggregate (counted 2)) ∷ [] }
    ensures first { totals counted_by_cpu counts (λ (tick : ℕ). 0) ≡ (Int (pos 4) ∷ [], Aggregate (counted 2)) ∷ [] }
    ensures each { totals counted_by_cpu counts (λ tick. tick) ≡
        (Int (pos 4) ∷ [], Aggregate (counted 1)) ∷ (Int (pos 9) ∷ [], Aggregate (counted 1)) ∷ [] }
{}

// A script that prints its counts only adds and prints; one that clears or reads them does not.
fn clears_and_reads_are_told()
    ensures prints { (script : Typed) → IsCounting (print_statement ∷ []) script → IsAggregationOnly script }
    ensures clears { (script : Typed) → IsCounting (print_statement ∷ clear_statement ∷ []) script → IsAggregationOnly script → ⊥ }
    ensures reads { (script : Typed) → IsCounting (print_statement ∷ read_statement ∷ []) script → IsAggregationOnly script → ⊥ }
{}

#[test]
fn totals_of_runs() {
    counts_add_up();
    ticks_count_for_who_runs_them();
    clears_and_reads_are_told();
}
