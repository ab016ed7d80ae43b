// The rows of a map, merged from several replies.
ghost use Rattle.std.specs.Prelude.{◌≡◌, OnOk, IfOk, map, fold};
ghost use Rattle.std.specs.List.{All};
ghost use Rattle.bt_core.specs.declared.item.Cell.TheVariants as cells;
ghost use Rattle.map_rows.specs.Merged.{agg_row, value_row, both_cells, rows_in, all_rows, merged, HasRowsOf};
ghost use Rattle.map_rows.specs.Merging.{with_row, HasAggKind, AllHaveAggKind, AllHaveKind};

use agg_core::aggregation::Aggregation;
use bt_core::agg::Agg;
use bt_core::item::Cell;
use bt_core::items::Items;
use bt_core::key::Key;
use bt_core::map::MapKind;
use bt_core::memory::{Memory, TryCopy};
use bt_core::step::Reply;
use bt_core::value::Value;
use std::alloc::Global;
use std::collections::BTreeMap;

/// Takes an aggregate into what stands under its key.
fn take_in(cell: &mut Cell, agg: &Agg)
    requires { HasAggKind agg.now.kind cell.old }
    ensures { cell.new ≡ both_cells cell.old (cells.Agg agg.now) }
{
    if let Cell::Agg(held) = cell {
        held.merge(agg);
    }
}

/// Adds a value, where its key has none yet.
fn add_value(
    rows: &mut BTreeMap<Key, Cell>,
    alloc: Global,
    row: &(Key, Value),
) -> Result<(), Memory>
    ensures { OnOk result (rows.new.entries ≡ with_row rows.old.entries (value_row row.now)) }
{
    if !rows.contains_key(&row.0) {
        let key = row.0.try_copy(alloc)?;
        rows.insert(key, Cell::Value(row.1.copy()))?;
    }
    Ok(())
}

/// Adds an aggregate, or takes it into the one of its key.
fn add_agg(rows: &mut BTreeMap<Key, Cell>, alloc: Global, row: &(Key, Agg)) -> Result<(), Memory>
    requires { AllHaveAggKind row.now.1.kind rows.old.entries }
    ensures { OnOk result (rows.new.entries ≡ with_row rows.old.entries (agg_row row.now)) }
{
    if let Some(cell) = rows.get_mut(&row.0) {
        take_in(cell, &row.1);
        return Ok(());
    }
    let key = row.0.try_copy(alloc)?;
    let agg = row.1.try_copy(alloc)?;
    rows.insert(key, Cell::Agg(agg))?;
    Ok(())
}

/// Adds the values of a reply.
fn add_values(
    rows: &mut BTreeMap<Key, Cell>,
    alloc: Global,
    values: &[(Key, Value)],
) -> Result<(), Memory>
    ensures { OnOk result (rows.new.entries ≡ fold with_row rows.old.entries (map value_row values.now)) }
{
    for value in values {
        add_value(rows, alloc, value)?;
    }
    Ok(())
}

/// Adds the rows of a reply.
fn add_reply(
    rows: &mut BTreeMap<Key, Cell>,
    alloc: Global,
    kind: MapKind,
    reply: &Reply,
) -> Result<(), Memory>
    requires held { AllHaveKind kind rows.old.entries }
    requires kind { HasRowsOf kind reply.now }
    ensures rows { OnOk result (rows.new.entries ≡ fold with_row rows.old.entries (rows_in kind reply.now)) }
    ensures held { OnOk result (AllHaveKind kind rows.new.entries) }
{
    match (kind, reply) {
        (MapKind::Aggs(_), Reply::Aggs(aggs)) => {
            for agg in aggs.as_slice() {
                add_agg(rows, alloc, agg)?;
            }
            Ok(())
        }
        (MapKind::Ints | MapKind::Strs, Reply::Pairs(values)) => {
            add_values(rows, alloc, values.as_slice())
        }
        _ => Ok(()),
    }
}

/// Adds the rows of replies, one after the other.
fn add_replies(
    rows: &mut BTreeMap<Key, Cell>,
    alloc: Global,
    kind: MapKind,
    replies: &[Reply],
) -> Result<(), Memory>
    requires held { AllHaveKind kind rows.old.entries }
    requires kind { All (HasRowsOf kind) replies.now }
    ensures { OnOk result (rows.new.entries ≡ fold with_row rows.old.entries (all_rows kind replies.now)) }
{
    for reply in replies {
        add_reply(rows, alloc, kind, reply)?;
    }
    Ok(())
}

/// The rows in key order.
fn listed(alloc: Global, rows: BTreeMap<Key, Cell>) -> Result<Items<(Key, Cell)>, Memory>
    ensures { IfOk result (λ list. list ≡ rows.entries) }
{
    Ok(Items::of(rows.into_iter().collect(alloc)?))
}

/// The rows of a map of this kind as one list, from the replies of the objects that hold parts of it: all
/// their keys in key order, each once. An aggregation's key has the merged aggregate of its aggregates, and
/// any other key the value of the first reply that holds it.
///
/// Each reply is one to who reads such a map. It takes time linear in the number of rows, but for a search
/// among the merged rows for each of them.
///
/// # Errors
///
/// [`Memory`] may come at any replies.
pub fn merged(alloc: Global, kind: MapKind, replies: &[Reply]) -> Result<Items<(Key, Cell)>, Memory>
    requires { All (HasRowsOf kind) replies.now }
    ensures { IfOk result (λ rows. rows ≡ merged kind replies.now) }
{
    let mut rows = BTreeMap::new(alloc);
    add_replies(&mut rows, alloc, kind, replies)?;
    listed(alloc, rows)
}
