// What maps gather.
ghost use Rattle.std.specs.Prelude.{◌≡◌, not};
ghost use Rattle.typed_tree.specs.Scope.{is_number, is_summed_kind, is_hist};

use bt_core::map::{AggKind, MapKind};

/// Whether an aggregation is one number, and no histogram.
pub fn is_number(kind: AggKind) -> bool
    ensures { result ≡ is_number kind }
{
    match kind {
        AggKind::Hist | AggKind::Lhist { .. } => false,
        _ => true,
    }
}

/// Whether a map is an aggregation that is one number.
pub fn is_summed_kind(kind: MapKind) -> bool
    ensures { result ≡ is_summed_kind kind }
{
    match kind {
        MapKind::Aggs(kind) => is_number(kind),
        MapKind::Ints => false,
        MapKind::Strs => false,
    }
}

/// Whether a map is an aggregation that is a histogram.
pub fn is_hist(kind: MapKind) -> bool
    ensures { result ≡ is_hist kind }
{
    match kind {
        MapKind::Aggs(kind) => !is_number(kind),
        MapKind::Ints => false,
        MapKind::Strs => false,
    }
}
