// The lines of the end of a run.
ghost use Rattle.std.specs.Prelude.{◌≡◌, ◌++◌, length, IfOk, OnOk};
ghost use Rattle.map_rows.specs.Fits.{AllRowsFit};
ghost use Rattle.serde_json.specs.View.{view};
ghost use Rattle.json_out.specs.Lines.{all_map_lines, all_lost_lines, end_lines, stats_data, json_stats_line};

use crate::maps::{write_lost, write_map};
use crate::objects::typed;
use crate::text::line_of;
use bt_core::item::Cell;
use bt_core::items::Items;
use bt_core::key::Key;
use bt_core::map::MapDecl;
use bt_core::memory::Memory;
use serde_json::Value as Json;
use std::alloc::Global;

/// Writes the line of each map that has rows.
fn write_maps(
    out: &mut Vec<u8>,
    alloc: Global,
    maps: &[MapDecl],
    rows: &[Items<(Key, Cell)>],
) -> Result<(), Memory>
    requires rows { length rows.now ≡ length maps.now }
    requires fit { AllRowsFit maps.now rows.now }
    ensures { OnOk result (out.new.items ≡ out.old.items ++ all_map_lines maps.now rows.now) }
{
    for at in 0..maps.len() {
        write_map(out, alloc, &maps[at], rows[at].as_slice(), 0, 1)?;
    }
    Ok(())
}

/// Writes the lines of the maps that lost updates.
fn write_all_lost(
    out: &mut Vec<u8>,
    alloc: Global,
    maps: &[MapDecl],
    lost: &[u64],
) -> Result<(), Memory>
    requires lost { length lost.now ≡ length maps.now }
    ensures { OnOk result (out.new.items ≡ out.old.items ++ all_lost_lines maps.now lost.now) }
{
    for at in 0..maps.len() {
        write_lost(out, alloc, maps[at].name.as_slice(), lost[at])?;
    }
    Ok(())
}

/// The lines of the maps at the end of a run: one for each map that has rows, with all of them and nothing
/// divided, and then one for each map that lost updates, both in the order of the maps.
///
/// For each map there are its rows and the number of its lost updates. Values are built for one line at a time.
///
/// # Errors
///
/// [`Memory`] may come at any maps.
pub fn end_lines(
    alloc: Global,
    maps: &[MapDecl],
    rows: &[Items<(Key, Cell)>],
    lost: &[u64],
) -> Result<Vec<u8>, Memory>
    requires rows { length rows.now ≡ length maps.now }
    requires lost { length lost.now ≡ length maps.now }
    requires fit { AllRowsFit maps.now rows.now }
    ensures { IfOk result (λ lines. lines.items ≡ end_lines maps.now rows.now lost.now) }
{
    let mut lines = Vec::new(alloc);
    write_maps(&mut lines, alloc, maps, rows)?;
    write_all_lost(&mut lines, alloc, maps, lost)?;
    Ok(lines)
}

/// The number of instructions of a run.
fn stats_value(alloc: Global, instructions: u64) -> Result<Json, Memory>
    ensures { IfOk result (λ json. view json ≡ stats_data instructions) }
{
    typed(alloc, "stats", "instructions", Json::from(instructions))
}

/// The line of the number of instructions that a run executed.
///
/// # Errors
///
/// [`Memory`] may come at any number.
pub fn json_stats_line(alloc: Global, instructions: u64) -> Result<Vec<u8>, Memory>
    ensures { IfOk result (λ lines. lines.items ≡ json_stats_line instructions) }
{
    line_of(alloc, stats_value(alloc, instructions)?)
}
