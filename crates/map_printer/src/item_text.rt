// The text of an item of output.
ghost use Rattle.std.specs.Prelude.{◌≡◌, ◌++◌, ◌≤ℤ◌, pos, slice_get, OnOk, IsSomeAnd};
ghost use Rattle.fmt_text.specs.Arguments.{AreArgumentsOf};
ghost use Rattle.map_printer.specs.ItemTexts.{call_text, declared_text, item_text};
ghost use Rattle.map_rows.specs.Items.{CanPrint, IsItemOf};

use crate::printing::write_printed;
use crate::warning::{write_cut, write_lost_events};
use bt_core::item::{Cell, Item};
use bt_core::items::Items;
use bt_core::key::Key;
use bt_core::map::{MapDecl, MapId};
use bt_core::memory::Memory;
use bt_core::value::Value;
use fmt_text::piece::Piece;
use fmt_text::rendering::write_rendered;
use std::alloc::Global;

/// Writes the text of a call with the format of this number.
fn write_call(
    out: &mut Vec<u8>,
    alloc: Global,
    formats: &[Items<Piece>],
    format: u32,
    values: &[Value],
) -> Result<(), Memory>
    requires { IsSomeAnd (slice_get formats.now format) (λ pieces. AreArgumentsOf pieces values.now) }
    ensures { OnOk result (out.new.items ≡ out.old.items ++ call_text (slice_get formats.now format) values.now) }
{
    match formats.get(format as usize) {
        Some(pieces) => write_rendered(out, alloc, pieces.as_slice(), values),
        None => Ok(()),
    }
}

/// Writes the text of the map of this number.
fn write_declared(
    out: &mut Vec<u8>,
    alloc: Global,
    maps: &[MapDecl],
    map: MapId,
    rows: &[(Key, Cell)],
    top: u64,
    div: i64,
) -> Result<(), Memory>
    requires { IsSomeAnd (slice_get maps.now map.0) (CanPrint rows.now div) }
    ensures { OnOk result (out.new.items ≡ out.old.items ++ declared_text (slice_get maps.now map.0) rows.now top div) }
{
    match maps.get(map.0 as usize) {
        Some(decl) => write_printed(out, alloc, decl, rows, top, div),
        None => Ok(()),
    }
}

/// Writes the text of an item of output of a script with these formats and maps, each by its number: that of a
/// `printf` call, of a map as [`write_printed`] writes it, the warning that the run was cut at a loop,
/// or the warning that events were lost.
///
/// # Errors
///
/// [`Memory`] may come at any item. After it a part of the text may be written.
pub fn write_item(
    out: &mut Vec<u8>,
    alloc: Global,
    formats: &[Items<Piece>],
    maps: &[MapDecl],
    item: &Item,
) -> Result<(), Memory>
    requires { IsItemOf formats.now maps.now item.now }
    ensures { OnOk result (out.new.items ≡ out.old.items ++ item_text formats.now maps.now item.now) }
{
    match item {
        Item::Printf { format, values } => {
            write_call(out, alloc, formats, *format, values.as_slice())
        }
        Item::Map {
            map,
            rows,
            top,
            div,
        } => write_declared(out, alloc, maps, *map, rows.as_slice(), *top, *div),
        Item::Cut { line } => write_cut(out, *line),
        Item::Lost { cpu, count } => write_lost_events(out, *cpu, *count),
    }
}
