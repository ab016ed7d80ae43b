// Both forms of what a run writes.
ghost use Rattle.std.specs.Prelude.{◌≡◌, ℕ, IfOk, length};
ghost use Rattle.map_rows.specs.Fits.{AllRowsFit};
ghost use Rattle.bt_meaning.specs.Prints.{lost_after, of_maps, rows_after};
ghost use Rattle.bt_meaning.specs.Texts.{EmitOwn};
ghost use Rattle.run_output.specs.Outputs.{output_of};

use crate::json_lines::json_text;
use bt_core::item::Cell;
use bt_core::items::Items;
use bt_core::key::Key;
use bt_core::memory::Memory;
use bt_meaning::text::text_of_run;
use std::alloc::Global;
use typed_tree::script::Typed;
use weave::woven::Woven;

/// In which form a run writes what it prints: as text, or as JSON lines.
#[derive(Clone, Copy)]
pub enum Form {
    Text,
    Json,
}

/// What a run that made these steps, with so many CPUs, writes in a form: what the items print that were emitted, then
/// what is in the maps, and then what they lost.
///
/// It takes the rows and the lost updates that each map has after the steps, as who holds the objects of the run can
/// tell them.
///
/// # Errors
///
/// [`Memory`] may come at any run.
pub fn output_of_run(
    alloc: Global,
    form: Form,
    script: &Typed,
    steps: &Woven,
    rows: &[Items<(Key, Cell)>],
    lost: &[u64],
) -> Result<Items<u8>, Memory>
    requires own { EmitOwn script.now steps.now }
    requires rows { length rows.now ≡ length script.now.maps }
    requires lost { length lost.now ≡ length script.now.maps }
    requires fit { AllRowsFit script.now.maps rows.now }
    ensures { IfOk result (λ output. (cpus : ℕ) →
        rows.now ≡ of_maps (rows_after script.now.maps cpus steps.now) 0 script.now.maps →
        lost.now ≡ of_maps (lost_after script.now.maps cpus steps.now) 0 script.now.maps →
        output ≡ output_of form script.now cpus steps.now) }
{
    match form {
        Form::Text => text_of_run(alloc, script, steps, rows, lost),
        Form::Json => json_text(alloc, script, steps, rows, lost),
    }
}
