// The rows of a map.
ghost use Rattle.std.specs.Prelude.{◌≡◌, ◌<◌, map, length, IfOk};
ghost use Rattle.std.specs.Int.RustNames.{unsigned_abs};
ghost use Rattle.std.specs.List.{All};
ghost use Rattle.map_printer.specs.Buckets.{FitsCounts};
ghost use Rattle.map_printer.specs.Counted.{FitsBuckets, FitsCell};
ghost use Rattle.map_printer.specs.Rows.{divided};
ghost use Rattle.serde_json.specs.View.{view};
ghost use Rattle.json_out.specs.Rows.{value_data, buckets, divided_value, agg_data, cell_data, row_data};
ghost use Rattle.json_out.specs.Texts.{list_data};

use crate::buckets::bucket_list;
use crate::objects::pair;
use crate::text::text_of;
use bt_core::agg::{Agg, Buckets};
use bt_core::item::Cell;
use bt_core::key::Key;
use bt_core::map::AggKind;
use bt_core::memory::Memory;
use bt_core::value::Value;
use map_printer::row_text::divided;
use map_rows::numbers::{number_of, whole_quotient};
use serde_json::{Value as Json, push};
use std::alloc::Global;

/// A value: a number or a string.
fn value_of(alloc: Global, value: &Value) -> Result<Json, Memory>
    ensures { IfOk result (λ json. view json ≡ value_data value.now) }
{
    match value {
        Value::Int(n) => Ok(Json::from(*n)),
        Value::Str(s) => Ok(Json::from(text_of(alloc, s.bytes())?)),
    }
}

/// The parts of a key.
fn parts_of(alloc: Global, parts: &[Value]) -> Result<Vec<Json>, Memory>
    ensures { IfOk result (λ list. map view list.items ≡ map value_data parts.now) }
{
    let mut list = Vec::with_capacity(alloc, parts.len())?;
    for part in parts {
        push(&mut list, value_of(alloc, part)?)?;
    }
    Ok(list)
}

/// A value under a key: a number divided, or a string as it is.
fn divided_value(alloc: Global, value: &Value, div: i64) -> Result<Json, Memory>
    ensures { IfOk result (λ json. view json ≡ divided_value div value.now) }
{
    match value {
        Value::Int(n) => Ok(Json::from(whole_quotient(*n, div))),
        Value::Str(s) => Ok(Json::from(text_of(alloc, s.bytes())?)),
    }
}

/// The buckets of a histogram with divided counts.
fn divided_buckets(alloc: Global, kind: AggKind, counts: &[u64], div: u64) -> Result<Json, Memory>
    requires some { 0 < div }
    requires fits { FitsCounts kind (length counts.now) }
    ensures { IfOk result (λ json. view json ≡ list_data (buckets kind (divided div counts.now))) }
{
    let counts = divided(alloc, counts, div)?;
    Ok(Json::from(bucket_list(alloc, kind, &counts)?))
}

/// An aggregate's value, or the buckets of a histogram.
fn agg_value(alloc: Global, agg: &Agg, div: i64) -> Result<Json, Memory>
    requires some { 0 < unsigned_abs div }
    requires fits { FitsBuckets agg.now.kind agg.now.buckets }
    ensures { IfOk result (λ json. view json ≡ agg_data div agg.now agg.now.buckets) }
{
    match &agg.buckets {
        Buckets::Plain => Ok(Json::from(whole_quotient(number_of(agg), div))),
        Buckets::Hist(counts) => divided_buckets(alloc, agg.kind, counts, div.unsigned_abs()),
        Buckets::Lhist(counts) => {
            divided_buckets(alloc, agg.kind, counts.as_slice(), div.unsigned_abs())
        }
    }
}

/// What stands under a key.
fn cell_value(alloc: Global, cell: &Cell, div: i64) -> Result<Json, Memory>
    requires some { 0 < unsigned_abs div }
    requires fits { FitsCell cell.now }
    ensures { IfOk result (λ json. view json ≡ cell_data div cell.now) }
{
    match cell {
        Cell::Value(value) => divided_value(alloc, value, div),
        Cell::Agg(agg) => agg_value(alloc, agg, div),
    }
}

/// A row: the parts of its key, and what stands under it.
fn row_value(alloc: Global, row: &(Key, Cell), div: i64) -> Result<Json, Memory>
    requires some { 0 < unsigned_abs div }
    requires fits { FitsCell row.now.1 }
    ensures { IfOk result (λ json. view json ≡ row_data div row.now) }
{
    let parts = parts_of(alloc, row.0.parts())?;
    let value = cell_value(alloc, &row.1, div)?;
    pair(alloc, "key", Json::from(parts), "value", value)
}

/// Rows in the order in which they come.
pub fn row_list(alloc: Global, rows: &[(Key, Cell)], div: i64) -> Result<Vec<Json>, Memory>
    requires some { 0 < unsigned_abs div }
    requires fit { All (λ row. FitsCell row.1) rows.now }
    ensures { IfOk result (λ list. map view list.items ≡ map (row_data div) rows.now) }
{
    let mut list = Vec::with_capacity(alloc, rows.len())?;
    for row in rows {
        push(&mut list, row_value(alloc, row, div)?)?;
    }
    Ok(list)
}
