// Buckets of histograms.
ghost use Rattle.std.specs.Prelude.{◌≡◌, ◌+◌, ◌≤◌, ◌<◌, ◌^◌, pos, ◌≤ℤ◌, ◌<ℤ◌, suc, length, cond};
ghost use Rattle.std.specs.Int.RustNames.{int_le};
ghost use Rattle.bt_core.specs.Kinds.{IsFineKind};
ghost use Rattle.agg_core.specs.Aggregates.{bucket, bounds, HasBuckets};

use bt_core::limits::LHIST_BUCKETS;
use bt_core::map::AggKind;

/// The bucket that a number falls into, counted from 0, of a well-formed kind that has buckets.
pub fn bucket_of(kind: AggKind, n: i64) -> u32
    requires well_formed { IsFineKind kind }
    requires buckets { HasBuckets kind }
    ensures { result ≡ bucket kind n }
{
    bucket_or_first(kind, n) as u32
}

// The bucket of a well-formed kind, and 0 where it has none.
pub fn bucket_or_first(kind: AggKind, n: i64) -> usize
    ensures { IsFineKind kind → result ≡ bucket kind n }
{
    match kind {
        AggKind::Hist => hist_bucket(n),
        AggKind::Lhist { min, max, step } => lhist_bucket(min, max, step, n),
        _ => 0,
    }
}

// The bucket of a power-of-two histogram.
#[tactic(auto, using(crate::proofs::BucketLemmas::hist_below, crate::proofs::BucketLemmas::hist_zero, crate::proofs::BucketLemmas::hist_above))]
fn hist_bucket(n: i64) -> usize
    ensures { result ≡ bucket AggKind.Hist n }
{
    if n < 0 {
        return 0;
    }
    if n == 0 {
        return 1;
    }
    n.unsigned_abs().ilog2() as usize + 2
}

// The bucket of a well-formed linear histogram.
fn lhist_bucket(min: i64, max: i64, step: i64, n: i64) -> usize
    ensures { IsFineKind (AggKind.Lhist min max step) → result ≡ bucket (AggKind.Lhist min max step) n }
{
    let width = step.unsigned_abs();
    if width == 0 {
        return 0;
    }
    let steps = max.abs_diff(min).div_ceil(width);
    let above = last_reached(max, n);
    if n < min {
        return above as usize;
    }
    let reached = (n.abs_diff(min) / width).saturating_add(1).min(steps);
    reached.saturating_add(above) as usize
}

// 1 where the number reaches the last bound, else 0.
fn last_reached(max: i64, n: i64) -> u64
    ensures { result ≡ cond (int_le max n) 1 0 }
{
    if max <= n { 1 } else { 0 }
}

// How many buckets a well-formed kind with buckets has.
pub fn bucket_count(kind: AggKind) -> usize
    requires { HasBuckets kind }
    ensures { IsFineKind kind → result ≡ suc (length (bounds kind)) }
{
    match kind {
        AggKind::Hist => 65,
        AggKind::Lhist { min, max, step } => lhist_count(min, max, step),
        _ => unreachable!(),
    }
}

// How many buckets a well-formed linear histogram has.
fn lhist_count(min: i64, max: i64, step: i64) -> usize
    ensures { IsFineKind (AggKind.Lhist min max step) → result ≡ suc (length (bounds (AggKind.Lhist min max step))) }
{
    let width = step.unsigned_abs();
    if width == 0 {
        return 0;
    }
    let steps = max.abs_diff(min).div_ceil(width);
    if steps <= LHIST_BUCKETS as u64 {
        steps as usize + 2
    } else {
        0
    }
}
