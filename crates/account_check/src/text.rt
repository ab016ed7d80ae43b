// The text that steps print, and where another differs from it.
ghost use Rattle.std.specs.Prelude.{◌≡◌, ◌↔◌, ◌++◌, ◌∷◌, [], ℕ, length, slice_get, Some, IsTrue, IfOk, OnOk, MatchOption};
ghost use Rattle.std.specs.List.{flat_map};
ghost use Rattle.map_printer.specs.ItemTexts.{item_text};
ghost use Rattle.map_rows.specs.Fits.{AllRowsFit};
ghost use Rattle.map_rows.specs.Items.{IsItemOf};
ghost use Rattle.walk_meaning.specs.Admits.{EmitsOnly};
ghost use Rattle.bt_meaning.specs.Prints.{emitted, lost_after, of_maps, printed_text, rows_after};
ghost use Rattle.bt_meaning.specs.Texts.{EmitOwn};
ghost use Rattle.account_check.specs.Differences.{DifferAt};

use account_steps::check::Told;
use bt_core::memory::Memory;
use bt_core::step::{Op, Step};
use map_printer::item_text::write_item;
use map_printer::printing::print_end;
use std::alloc::Global;
use typed_tree::script::Typed;

/// Writes the text of what a step emits.
fn write_step(out: &mut Vec<u8>, alloc: Global, script: &Typed, step: &Step) -> Result<(), Memory>
    requires { EmitsOnly (IsItemOf script.now.formats script.now.maps) step.now.op }
    ensures { OnOk result (out.new.items ≡
        out.old.items ++ flat_map (item_text script.now.formats script.now.maps) (emitted (step.now ∷ []))) }
{
    match &step.op {
        Op::Emit(item) => write_item(
            out,
            alloc,
            script.formats.as_slice(),
            script.maps.as_slice(),
            item,
        ),
        _ => Ok(()),
    }
}

/// The texts of what steps emit, one behind the other.
fn emitted_text(alloc: Global, script: &Typed, steps: &[Step]) -> Result<Vec<u8>, Memory>
    requires { EmitOwn script.now steps.now }
    ensures { IfOk result (λ text. text.items ≡ flat_map (item_text script.now.formats script.now.maps) (emitted steps.now)) }
{
    let mut text = Vec::new(alloc);
    for step in steps {
        write_step(&mut text, alloc, script, step)?;
    }
    Ok(text)
}

/// The text of steps: that of what they emit, then each map that is not empty after them, and then a warning for each map that lost
/// updates.
///
/// [`Memory`] is its one error.
pub(crate) fn text_of(alloc: Global, script: &Typed, told: &Told) -> Result<Vec<u8>, Memory>
    requires own { EmitOwn script.now told.now.steps }
    requires rows { length told.now.rows.items ≡ length script.now.maps }
    requires lost { length told.now.lost.items ≡ length script.now.maps }
    requires fit { AllRowsFit script.now.maps told.now.rows.items }
    ensures { IfOk result (λ text. (cpus : ℕ) →
        told.now.rows.items ≡ of_maps (rows_after script.now.maps cpus told.now.steps) 0 script.now.maps →
        told.now.lost.items ≡ of_maps (lost_after script.now.maps cpus told.now.steps) 0 script.now.maps →
        text.items ≡ printed_text script.now cpus told.now.steps) }
{
    let mut text = emitted_text(alloc, script, told.steps.as_slice())?;
    let end = print_end(
        alloc,
        script.maps.as_slice(),
        told.rows.as_slice(),
        told.lost.as_slice(),
    )?;
    text.extend_from_slice(end.as_slice())?;
    Ok(text)
}

/// Whether a text has this byte at this place.
fn has_byte(text: &[u8], at: usize, byte: u8) -> bool
    ensures { IsTrue result ↔ (slice_get text.now at ≡ Some byte) }
{
    match text.get(at) {
        Some(there) => *there == byte,
        None => false,
    }
}

/// The first place where one text differs from another, or `None` where they are the same.
pub(crate) fn first_difference(one: &[u8], other: &[u8]) -> Option<usize>
    ensures { MatchOption result (one.now ≡ other.now) (λ at. DifferAt one.now other.now at) }
{
    for (at, byte) in one.iter().enumerate() {
        if !has_byte(other, at, *byte) {
            return Some(at);
        }
    }
    if one.len() < other.len() {
        Some(one.len())
    } else {
        None
    }
}
