// The JSON lines of a run.
ghost use Rattle.std.specs.Prelude.{◌≡◌, ◌++◌, ℕ, List, OnOk, IfOk, length, map};
ghost use Rattle.std.specs.List.{AllByRecursion, flat_map};
ghost use Rattle.json_out.specs.Lines.{item_lines};
ghost use Rattle.map_rows.specs.Fits.{AllRowsFit};
ghost use Rattle.map_rows.specs.Items.{IsItemOf};
ghost use Rattle.step_list.specs.Emits.{item_told};
ghost use Rattle.bt_meaning.specs.Prints.{emitted, lost_after, of_maps, rows_after};
ghost use Rattle.bt_meaning.specs.Texts.{EmitOwn, item_of};
ghost use Rattle.run_output.specs.JsonLines.{json_text_of};

use bt_core::item::{Cell, Item};
use bt_core::items::Items;
use bt_core::key::Key;
use bt_core::memory::Memory;
use json_out::ends::end_lines;
use json_out::items::item_lines;
use std::alloc::Global;
use step_list::emits::{Emitted, EmittedItem, printed};
use typed_tree::script::Typed;
use weave::woven::Woven;

/// Writes the lines of an item.
fn write_item(out: &mut Vec<u8>, alloc: Global, script: &Typed, item: &Item) -> Result<(), Memory>
    requires { IsItemOf script.now.formats script.now.maps item.now }
    ensures { OnOk result (out.new.items ≡ out.old.items ++ item_lines script.now.formats script.now.maps item.now) }
{
    let lines = item_lines(
        alloc,
        script.formats.as_slice(),
        script.maps.as_slice(),
        item,
    )?;
    out.extend_from_slice(lines.as_slice())?;
    Ok(())
}

/// Writes the lines of an item that was emitted.
fn write_emitted(
    out: &mut Vec<u8>,
    alloc: Global,
    script: &Typed,
    emitted: EmittedItem<'_>,
) -> Result<(), Memory>
    requires { IsItemOf script.now.formats script.now.maps (item_told emitted) }
    ensures { OnOk result (out.new.items ≡ out.old.items ++ item_lines script.now.formats script.now.maps (item_told emitted.entry)) }
{
    match emitted {
        EmittedItem::Whole(_, item) => write_item(out, alloc, script, item),
        EmittedItem::Printed(print, prints) => {
            let item = printed(alloc, print, prints)?;
            write_item(out, alloc, script, &item)
        }
    }
}

/// The lines of items, one behind the other.
fn lines_of(alloc: Global, script: &Typed, emits: &[Emitted]) -> Result<Vec<u8>, Memory>
    requires { AllByRecursion (IsItemOf script.now.formats script.now.maps) (map item_of emits.now) }
    ensures { IfOk result (λ lines. lines.items ≡
        flat_map (item_lines script.now.formats script.now.maps) (map item_of emits.now)) }
{
    let mut lines = Vec::new(alloc);
    for emit in emits {
        write_emitted(&mut lines, alloc, script, emit.item)?;
    }
    Ok(lines)
}

/// The lines of the items that steps emitted, in the order of the steps.
fn emitted_lines(alloc: Global, script: &Typed, steps: &Woven) -> Result<Vec<u8>, Memory>
    requires { EmitOwn script.now steps.now }
    ensures { IfOk result (λ lines. lines.items ≡
        flat_map (item_lines script.now.formats script.now.maps) (emitted steps.now)) }
{
    let emits = steps.emitted(alloc)?;
    let lines = lines_of(alloc, script, emits.as_slice())?;
    Ok(lines)
}

/// The JSON lines of a run that made these steps, with so many CPUs: those of the items that were emitted, then one of
/// each map that has rows, and then one of each map that lost updates.
///
/// It takes the rows and the lost updates that each map has after the steps, as who holds the objects of the run can
/// tell them.
///
/// # Errors
///
/// [`Memory`] may come at any run.
pub fn json_text(
    alloc: Global,
    script: &Typed,
    steps: &Woven,
    rows: &[Items<(Key, Cell)>],
    lost: &[u64],
) -> Result<Items<u8>, Memory>
    requires own { EmitOwn script.now steps.now }
    requires rows { length rows.now ≡ length script.now.maps }
    requires lost { length lost.now ≡ length script.now.maps }
    requires fit { AllRowsFit script.now.maps rows.now }
    ensures { IfOk result (λ lines. (cpus : ℕ) →
        rows.now ≡ of_maps (rows_after script.now.maps cpus steps.now) 0 script.now.maps →
        lost.now ≡ of_maps (lost_after script.now.maps cpus steps.now) 0 script.now.maps →
        lines ≡ json_text_of script.now cpus steps.now) }
{
    let mut lines = emitted_lines(alloc, script, steps)?;
    let end = end_lines(alloc, script.maps.as_slice(), rows, lost)?;
    lines.extend_from_slice(end.as_slice())?;
    Ok(Items::of(lines))
}
