// The numbers of aggregates.
ghost use Rattle.std.specs.Prelude.{◌≡◌, drop};
ghost use Rattle.bt_core.specs.Order.{key_order};
ghost use Rattle.agg_core.specs.Changes.{is_key};
ghost use Rattle.map_rows.specs.Numbers.{whole_quotient, number_or_zero, number_of, number_by};
ghost use Rattle.map_rows.specs.UnderKey.{cell_number, number_under};

use bt_core::agg::Agg;
use bt_core::arithmetic::binary;
use bt_core::item::Cell;
use bt_core::key::Key;
use bt_core::map::AggKind;
use bt_core::operator::BinOp;
use bt_core::order::compare_keys;

/// What the operator `/` of scripts gives: truncated, and 0 where the divisor is 0.
pub fn whole_quotient(a: i64, b: i64) -> i64
    ensures { result ≡ whole_quotient a b }
{
    binary(BinOp::Div, a, b)
}

/// The value of an aggregate that is no histogram.
pub fn number_of(agg: &Agg) -> i64
    ensures { result ≡ number_of agg.now }
{
    match agg.kind {
        AggKind::Count => agg.count,
        AggKind::Sum => agg.sum,
        AggKind::Min => agg.least.unwrap_or(0),
        AggKind::Max => agg.greatest.unwrap_or(0),
        AggKind::Avg => whole_quotient(agg.sum, agg.count),
        AggKind::Hist | AggKind::Lhist { .. } => 0,
    }
}

/// Whether two keys are one.
fn is_key(one: &Key, other: &Key) -> bool
    ensures { result ≡ is_key one.now other.now }
{
    compare_keys(one, other).is_eq()
}

/// The number of an aggregation, which is no histogram, under a key of its merged rows, and 0 where they have no such
/// key.
pub fn number_under(key: &Key, rows: &[(Key, Cell)]) -> i64
    ensures { result ≡ number_under key.now rows.now }
{
    for row in rows {
        if is_key(key, &row.0) {
            return match &row.1 {
                Cell::Value(_) => 0,
                Cell::Agg(agg) => number_of(agg),
            };
        }
    }
    0
}
