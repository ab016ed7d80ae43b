// The text of a run.
ghost use Rattle.std.specs.Prelude.{◌≡◌, ◌++◌, ℕ, List, OnOk, IfOk, length, map};
ghost use Rattle.std.specs.List.{AllByRecursion, flat_map};
ghost use Rattle.map_printer.specs.Ends.{end_text};
ghost use Rattle.map_rows.specs.Fits.{AllRowsFit};
ghost use Rattle.map_printer.specs.ItemTexts.{item_text};
ghost use Rattle.map_rows.specs.Items.{IsItemOf};
ghost use Rattle.step_list.specs.Emits.{item_told};
ghost use Rattle.bt_meaning.specs.Prints.{emitted, lost_after, of_maps, printed_text, rows_after};
ghost use Rattle.bt_meaning.specs.Texts.{EmitOwn, item_of};

use bt_core::item::{Cell, Item};
use bt_core::items::Items;
use bt_core::key::Key;
use bt_core::memory::Memory;
use map_printer::item_text::write_item;
use map_printer::printing::print_end;
use std::alloc::Global;
use step_list::emits::{Emitted, EmittedItem, printed};
use typed_tree::script::Typed;
use weave::woven::Woven;

/// Writes the text of an item.
fn write_text(out: &mut Vec<u8>, alloc: Global, script: &Typed, item: &Item) -> Result<(), Memory>
    requires { IsItemOf script.now.formats script.now.maps item.now }
    ensures { OnOk result (out.new.items ≡ out.old.items ++ item_text script.now.formats script.now.maps item.now) }
{
    write_item(
        out,
        alloc,
        script.formats.as_slice(),
        script.maps.as_slice(),
        item,
    )
}

/// Writes the text of an item that was emitted.
fn write_emitted(
    out: &mut Vec<u8>,
    alloc: Global,
    script: &Typed,
    emitted: EmittedItem<'_>,
) -> Result<(), Memory>
    requires { IsItemOf script.now.formats script.now.maps (item_told emitted) }
    ensures { OnOk result (out.new.items ≡ out.old.items ++ item_text script.now.formats script.now.maps (item_told emitted.entry)) }
{
    match emitted {
        EmittedItem::Whole(_, item) => write_text(out, alloc, script, item),
        EmittedItem::Printed(print, prints) => {
            let item = printed(alloc, print, prints)?;
            write_text(out, alloc, script, &item)
        }
    }
}

/// The texts of items, one behind the other.
fn texts_of(alloc: Global, script: &Typed, emits: &[Emitted]) -> Result<Vec<u8>, Memory>
    requires { AllByRecursion (IsItemOf script.now.formats script.now.maps) (map item_of emits.now) }
    ensures { IfOk result (λ text. text.items ≡ flat_map (item_text script.now.formats script.now.maps) (map item_of emits.now)) }
{
    let mut text = Vec::new(alloc);
    for emit in emits {
        write_emitted(&mut text, alloc, script, emit.item)?;
    }
    Ok(text)
}

/// The text of the items that steps emitted, in the order of the steps.
fn emitted_text(alloc: Global, script: &Typed, steps: &Woven) -> Result<Vec<u8>, Memory>
    requires { EmitOwn script.now steps.now }
    ensures { IfOk result (λ text. text.items ≡ flat_map (item_text script.now.formats script.now.maps) (emitted steps.now)) }
{
    let emits = steps.emitted(alloc)?;
    let text = texts_of(alloc, script, emits.as_slice())?;
    Ok(text)
}

/// The text of a run that made these steps, with so many CPUs: that of the items that were emitted, then each map that is not empty,
/// and then a warning for each map that lost updates.
///
/// It takes the rows and the lost updates that each map has after the steps, as who holds the objects of the run can tell them.
/// [`Memory`] is its one error.
pub fn text_of_run(
    alloc: Global,
    script: &Typed,
    steps: &Woven,
    rows: &[Items<(Key, Cell)>],
    lost: &[u64],
) -> Result<Items<u8>, Memory>
    requires own { EmitOwn script.now steps.now }
    requires rows { length rows.now ≡ length script.now.maps }
    requires lost { length lost.now ≡ length script.now.maps }
    requires fit { AllRowsFit script.now.maps rows.now }
    ensures { IfOk result (λ text. (cpus : ℕ) → rows.now ≡ of_maps (rows_after script.now.maps cpus steps.now) 0 script.now.maps →
        lost.now ≡ of_maps (lost_after script.now.maps cpus steps.now) 0 script.now.maps → text ≡ printed_text script.now cpus steps.now) }
{
    let mut text = emitted_text(alloc, script, steps)?;
    let end = print_end(alloc, script.maps.as_slice(), rows, lost)?;
    text.extend_from_slice(end.as_slice())?;
    Ok(Items::of(text))
}
