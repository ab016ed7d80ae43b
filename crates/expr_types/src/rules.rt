// Which rule a mention breaks.
ghost use Rattle.std.specs.Prelude.{◌≡◌, Bool};
ghost use Rattle.typed_tree.specs.Scope.{same_shape, same_shapes, same_kind, is_fine_agg};
ghost use Rattle.expr_types.specs.declared.fault.TypeError.TheVariants.{Broken};
ghost use Rattle.expr_types.specs.Known.{decl_in};
ghost use Rattle.expr_types.specs.Rules.{is_one_too_many, is_agg_in, is_hist_in, is_other_kind, is_other_key, has_other_keys, read_breaks, write_breaks};

use crate::fault::{Fault, Rule, TypeError};
use crate::known::Known;
use bt_core::limits::{KEY_PARTS, LHIST_BUCKETS, MAPS};
use bt_core::map::{AggKind, MapKind, Shape};
use bt_core::place::Place;
use typed_tree::kind::is_hist;

/// A rule that is broken at a place.
pub fn broken(rule: Rule, place: Place) -> TypeError
    ensures { result ≡ Broken (record { rule = rule; place = place }) }
{
    TypeError::Broken(Fault { rule, place })
}

/// Whether two types are one.
pub fn same_shape(a: Shape, b: Shape) -> bool
    ensures { result ≡ same_shape a b }
{
    a == b
}

/// Whether two keys have parts of the same types.
pub fn same_shapes(a: &[Shape], b: &[Shape]) -> bool
    ensures { result ≡ same_shapes a.now b.now }
{
    if a.len() != b.len() {
        return false;
    }
    for (i, shape) in a.iter().enumerate() {
        if !same_shape(*shape, b[i]) {
            return false;
        }
    }
    true
}

/// Whether two maps hold the same, bounds of linear histograms included.
pub fn same_kind(a: MapKind, b: MapKind) -> bool
    ensures { result ≡ same_kind a b }
{
    match (a, b) {
        (MapKind::Ints, MapKind::Ints) => true,
        (MapKind::Strs, MapKind::Strs) => true,
        (MapKind::Aggs(a), MapKind::Aggs(b)) => a == b,
        _ => false,
    }
}

/// Whether the bounds of a linear histogram are some: the greatest is above the least, a step is at least 1, and there are at
/// most 1,000 steps. Other aggregations have none to be wrong.
pub fn is_fine_agg(kind: AggKind) -> bool
    ensures { result ≡ is_fine_agg kind }
{
    match kind {
        AggKind::Lhist { min, max, step } => {
            if min >= max {
                return false;
            }
            if step < 1 {
                return false;
            }
            let steps = max.abs_diff(min).div_ceil(step.unsigned_abs());
            steps <= u64::from(LHIST_BUCKETS)
        }
        _ => true,
    }
}

/// Whether this mention is the first one of a 33rd map.
pub fn is_one_too_many(known: &Known, name: &[u8]) -> bool
    ensures { result ≡ is_one_too_many known.now name.now }
{
    !known.is_mentioned(name) && known.mentioned.len() >= MAPS as usize
}

/// Whether a map was decided to gather numbers.
pub fn is_agg(known: &Known, name: &[u8]) -> bool
    ensures { result ≡ is_agg_in (decl_in name.now known.now.decided) }
{
    match known.decl(name) {
        None => false,
        Some(decl) => matches!(decl.kind, MapKind::Aggs(_)),
    }
}

/// Whether a map was decided to count numbers in buckets.
fn is_hist_map(known: &Known, name: &[u8]) -> bool
    ensures { result ≡ is_hist_in (decl_in name.now known.now.decided) }
{
    match known.decl(name) {
        None => false,
        Some(decl) => is_hist(decl.kind),
    }
}

/// Whether a map was decided to hold another kind than this.
fn is_other_kind(known: &Known, name: &[u8], kind: MapKind) -> bool
    ensures { result ≡ is_other_kind (decl_in name.now known.now.decided) kind }
{
    match known.decl(name) {
        None => false,
        Some(decl) => !same_kind(decl.kind, kind),
    }
}

/// Whether a key has more than four parts, or the map was decided to have other keys.
pub fn has_other_keys(known: &Known, name: &[u8], shapes: &[Shape]) -> bool
    ensures { result ≡ has_other_keys known.now name.now shapes.now }
{
    if shapes.len() > KEY_PARTS {
        return true;
    }
    match known.decl(name) {
        None => false,
        Some(decl) => !same_shapes(decl.key_shape.as_slice(), shapes),
    }
}

/// The first rule that a read of a map breaks.
pub fn read_breaks(known: &Known, name: &[u8], shapes: &[Shape]) -> Option<Rule>
    ensures { result ≡ read_breaks known.now name.now shapes.now }
{
    if is_one_too_many(known, name) {
        return Some(Rule::TooManyMaps);
    }
    if is_hist_map(known, name) {
        return Some(Rule::AggregationRead);
    }
    if has_other_keys(known, name, shapes) {
        return Some(Rule::OtherKeys);
    }
    None
}

/// The first rule that a mention breaks which decides this kind.
pub fn write_breaks(known: &Known, name: &[u8], kind: MapKind, shapes: &[Shape]) -> Option<Rule>
    ensures { result ≡ write_breaks known.now name.now kind shapes.now }
{
    if is_one_too_many(known, name) {
        return Some(Rule::TooManyMaps);
    }
    if is_other_kind(known, name, kind) {
        return Some(Rule::OtherKind);
    }
    if has_other_keys(known, name, shapes) {
        return Some(Rule::OtherKeys);
    }
    None
}
