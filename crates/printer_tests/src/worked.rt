// Rows and texts that were worked out by hand, computed from the words of the clauses.
ghost use Rattle.std.specs.Prelude.{◌≡◌, pos, codes};
ghost use Rattle.bt_core.specs.declared.map.MapKind.TheVariants.{Ints};
ghost use Rattle.map_rows.specs.Merged.{merged};
ghost use Rattle.map_printer.specs.Ends.{printed_map};
ghost use Rattle.printer_tests.specs.Worked.{value_replies, kept_values, histogram_decl, many_ones_rows};

use map_rows::laws::{merged_rows_are, merged_rows_fit};

// The first value of a key stays.
fn the_first_value_stays()
    ensures { merged Ints value_replies ≡ kept_values }
{}

// A count of more digits than its column has is written whole.
fn a_long_count_is_whole()
    ensures { printed_map histogram_decl many_ones_rows 0 (pos 1) ≡
        codes "@:\n[1]             134217728 |@@@@@@@@@@@@@@@@@@@@@@@@@@@@@@@@@@@@@@@@@@@@@@@@@@@@|\n\n" }
{}

#[test]
fn what_no_run_shows_comes_out() {
    the_first_value_stays();
    a_long_count_is_whole();
    merged_rows_are();
    merged_rows_fit();
}
