// The lines of maps and of their lost updates.
ghost use Rattle.std.specs.Prelude.{◌≡◌, ◌++◌, ◌<◌, ◌≤ℤ◌, pos, map, IfOk, OnOk};
ghost use Rattle.std.specs.Int.RustNames.{unsigned_abs};
ghost use Rattle.std.specs.List.{All};
ghost use Rattle.map_printer.specs.Counted.{FitsCell};
ghost use Rattle.map_rows.specs.Fits.{IsRowOf};
ghost use Rattle.serde_json.specs.View.{view};
ghost use Rattle.json_out.specs.Lines.{map_data, rows_lines, map_lines, lost_updates_data, lost_lines};
ghost use Rattle.json_out.specs.Rows.{row_data};

use crate::objects::typed_pair;
use crate::rows::row_list;
use crate::text::{text_of, write_line};
use bt_core::item::Cell;
use bt_core::key::Key;
use bt_core::map::MapDecl;
use bt_core::memory::Memory;
use map_printer::order::put_in_order;
use map_printer::printing::{copied, top_rows};
use serde_json::Value as Json;
use std::alloc::Global;

/// The map of this name with these rows.
fn map_value(alloc: Global, name: &[u8], rows: &[(Key, Cell)], div: i64) -> Result<Json, Memory>
    requires some { 0 < unsigned_abs div }
    requires fit { All (λ row. FitsCell row.1) rows.now }
    ensures { IfOk result (λ json. view json ≡ map_data name.now (map (row_data div) rows.now)) }
{
    let name = Json::from(text_of(alloc, name)?);
    let list = row_list(alloc, rows, div)?;
    typed_pair(alloc, "map", "data", Json::from(list), "map", name)
}

/// Writes the line of a map, its rows in the order in which they come; nothing where there are none.
fn write_rows(
    out: &mut Vec<u8>,
    alloc: Global,
    name: &[u8],
    rows: &[(Key, Cell)],
    div: i64,
) -> Result<(), Memory>
    requires some { 0 < unsigned_abs div }
    requires fit { All (λ row. FitsCell row.1) rows.now }
    ensures { OnOk result (out.new.items ≡ out.old.items ++ rows_lines name.now div rows.now) }
{
    if rows.is_empty() {
        return Ok(());
    }
    write_line(out, alloc, map_value(alloc, name, rows, div)?)
}

/// Writes the line of a map: its last rows in ascending order of their values, as many as `top` says,
/// where 0 says all, each divided by `div`.
pub fn write_map(
    out: &mut Vec<u8>,
    alloc: Global,
    decl: &MapDecl,
    rows: &[(Key, Cell)],
    top: u64,
    div: i64,
) -> Result<(), Memory>
    requires divides { pos 1 ≤ℤ div }
    requires fit { All (IsRowOf decl.now) rows.now }
    ensures { OnOk result (out.new.items ≡ out.old.items ++ map_lines decl.now rows.now top div) }
{
    let mut rows = copied(alloc, rows)?;
    put_in_order(&mut rows)?;
    write_rows(out, alloc, decl.name.as_slice(), top_rows(&rows, top), div)
}

/// The line of a map, as [`write_map`] writes it.
pub fn map_lines(
    alloc: Global,
    decl: &MapDecl,
    rows: &[(Key, Cell)],
    top: u64,
    div: i64,
) -> Result<Vec<u8>, Memory>
    requires divides { pos 1 ≤ℤ div }
    requires fit { All (IsRowOf decl.now) rows.now }
    ensures { IfOk result (λ lines. lines.items ≡ map_lines decl.now rows.now top div) }
{
    let mut lines = Vec::new(alloc);
    write_map(&mut lines, alloc, decl, rows, top, div)?;
    Ok(lines)
}

/// The updates of a map that were lost.
fn lost_value(alloc: Global, name: &[u8], lost: u64) -> Result<Json, Memory>
    ensures { IfOk result (λ json. view json ≡ lost_updates_data lost name.now) }
{
    let name = Json::from(text_of(alloc, name)?);
    typed_pair(
        alloc,
        "lost_updates",
        "count",
        Json::from(lost),
        "map",
        name,
    )
}

/// Writes the line of so many lost updates of the map of this name; nothing where none was lost.
pub fn write_lost(out: &mut Vec<u8>, alloc: Global, name: &[u8], lost: u64) -> Result<(), Memory>
    ensures { OnOk result (out.new.items ≡ out.old.items ++ lost_lines lost name.now) }
{
    if lost == 0 {
        return Ok(());
    }
    write_line(out, alloc, lost_value(alloc, name, lost)?)
}
