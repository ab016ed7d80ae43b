// The line of an item of output.
ghost use Rattle.std.specs.Prelude.{◌≡◌, slice_get, IfOk, IsSomeAnd};
ghost use Rattle.fmt_text.specs.Arguments.{AreArgumentsOf};
ghost use Rattle.fmt_text.specs.Rendered.{rendered};
ghost use Rattle.map_rows.specs.Items.{CanPrint, IsItemOf};
ghost use Rattle.serde_json.specs.View.{view};
ghost use Rattle.json_out.specs.Lines.{printf_data, cut_data, lost_events_data, call_lines, declared_lines, item_lines};
ghost use Rattle.json_out.specs.Texts.{json_line};

use crate::maps::map_lines;
use crate::objects::{typed, typed_pair};
use crate::text::{line_of, text_of};
use bt_core::item::{Cell, Item};
use bt_core::items::Items;
use bt_core::key::Key;
use bt_core::map::{MapDecl, MapId};
use bt_core::memory::Memory;
use bt_core::value::Value;
use fmt_text::piece::Piece;
use fmt_text::rendering::render;
use serde_json::Value as Json;
use std::alloc::Global;

/// What a call printed.
fn printf_value(alloc: Global, text: &[u8]) -> Result<Json, Memory>
    ensures { IfOk result (λ json. view json ≡ printf_data text.now) }
{
    let text = text_of(alloc, text)?;
    typed(alloc, "printf", "data", Json::from(text))
}

/// That a run was cut at the loop on this line.
fn cut_value(alloc: Global, line: u32) -> Result<Json, Memory>
    ensures { IfOk result (λ json. view json ≡ cut_data line) }
{
    typed(alloc, "cut", "line", Json::from(line))
}

/// That so many events of the CPU of this number were lost.
fn lost_value(alloc: Global, cpu: u32, count: u64) -> Result<Json, Memory>
    ensures { IfOk result (λ json. view json ≡ lost_events_data cpu count) }
{
    let count = Json::from(count);
    typed_pair(alloc, "lost_events", "count", count, "cpu", Json::from(cpu))
}

/// The line of a call with this format.
fn call_line(alloc: Global, pieces: &[Piece], values: &[Value]) -> Result<Vec<u8>, Memory>
    requires { AreArgumentsOf pieces.now values.now }
    ensures { IfOk result (λ line. line.items ≡ json_line (printf_data (rendered pieces.now values.now))) }
{
    let text = render(alloc, pieces, values)?;
    line_of(alloc, printf_value(alloc, &text)?)
}

/// The line of a call with the format of this number.
fn call_lines(
    alloc: Global,
    formats: &[Items<Piece>],
    format: u32,
    values: &[Value],
) -> Result<Vec<u8>, Memory>
    requires { IsSomeAnd (slice_get formats.now format) (λ pieces. AreArgumentsOf pieces values.now) }
    ensures { IfOk result (λ lines. lines.items ≡ call_lines (slice_get formats.now format) values.now) }
{
    match formats.get(format as usize) {
        Some(pieces) => call_line(alloc, pieces.as_slice(), values),
        None => Ok(Vec::new(alloc)),
    }
}

/// The line of the map of this number.
fn declared_lines(
    alloc: Global,
    maps: &[MapDecl],
    map: MapId,
    rows: &[(Key, Cell)],
    top: u64,
    div: i64,
) -> Result<Vec<u8>, Memory>
    requires { IsSomeAnd (slice_get maps.now map.0) (CanPrint rows.now div) }
    ensures { IfOk result (λ lines. lines.items ≡ declared_lines (slice_get maps.now map.0) rows.now top div) }
{
    match maps.get(map.0 as usize) {
        Some(decl) => map_lines(alloc, decl, rows, top, div),
        None => Ok(Vec::new(alloc)),
    }
}

/// The line that a run was cut at the loop on this line of the script.
fn cut_line(alloc: Global, line: u32) -> Result<Vec<u8>, Memory>
    ensures { IfOk result (λ lines. lines.items ≡ json_line (cut_data line)) }
{
    line_of(alloc, cut_value(alloc, line)?)
}

/// The line of lost events.
fn lost_line(alloc: Global, cpu: u32, count: u64) -> Result<Vec<u8>, Memory>
    ensures { IfOk result (λ lines. lines.items ≡ json_line (lost_events_data cpu count)) }
{
    line_of(alloc, lost_value(alloc, cpu, count)?)
}

/// The line of an item of output of a script with these formats and maps, each by its number: what a `printf`
/// call printed, the rows of a map, that the run was cut at a loop, or that events were lost.
///
/// A map without rows has no line. The rows that are kept, their order and what they are divided by are
/// those of the printed text. A byte string becomes the text whose characters have the numbers of its bytes.
/// It takes the time of one sort of the rows, and beside that time linear in the line and the counts.
///
/// # Errors
///
/// [`Memory`] may come at any item.
pub fn item_lines(
    alloc: Global,
    formats: &[Items<Piece>],
    maps: &[MapDecl],
    item: &Item,
) -> Result<Vec<u8>, Memory>
    requires { IsItemOf formats.now maps.now item.now }
    ensures { IfOk result (λ lines. lines.items ≡ item_lines formats.now maps.now item.now) }
{
    match item {
        Item::Printf { format, values } => call_lines(alloc, formats, *format, values.as_slice()),
        Item::Map {
            map,
            rows,
            top,
            div,
        } => declared_lines(alloc, maps, *map, rows.as_slice(), *top, *div),
        Item::Cut { line } => cut_line(alloc, *line),
        Item::Lost { cpu, count } => lost_line(alloc, *cpu, *count),
    }
}
