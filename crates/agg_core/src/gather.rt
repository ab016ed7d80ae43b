// Numbers into aggregates.
ghost use Rattle.std.specs.Prelude.{◌≡◌, ◌+◌, ◌%◌, ◌^◌, [], IfOk, replicate, length};
ghost use Rattle.bt_core.specs.Kinds.{IsFineKind};
ghost use Rattle.agg_core.specs.Aggregates.{buckets_of};
ghost use Rattle.agg_core.specs.Gathering.{with_number, with_bucket, one_more, emptied};

use crate::bucket::{bucket_count, bucket_or_first};
use crate::merge::{greater, lesser};
use bt_core::agg::{Agg, Buckets};
use bt_core::items::Items;
use bt_core::map::AggKind;
use bt_core::memory::Memory;
use std::alloc::Global;

// Takes one number more.
pub fn take_number(agg: &mut Agg, n: i64)
    ensures kind { agg.new.kind ≡ agg.old.kind }
    ensures taken { IsFineKind agg.old.kind → agg.new ≡ with_number agg.old n }
{
    agg.count = agg.count.wrapping_add(1);
    agg.sum = agg.sum.wrapping_add(n);
    agg.least = lesser(agg.least, Some(n));
    agg.greatest = greater(agg.greatest, Some(n));
    count_in(&mut agg.buckets, bucket_or_first(agg.kind, n));
}

fn count_in(buckets: &mut Buckets, bucket: usize)
    ensures { buckets.new ≡ with_bucket bucket buckets.old }
{
    match buckets {
        Buckets::Plain => {}
        Buckets::Hist(counts) => count_at(counts, bucket),
        Buckets::Lhist(counts) => count_at(counts.as_mut_slice(), bucket),
    }
}

fn count_at(counts: &mut [u64], bucket: usize)
    ensures { counts.new ≡ one_more bucket counts.old }
{
    if bucket < counts.len() {
        counts[bucket] = counts[bucket].wrapping_add(1);
    }
}

// The buckets of a kind with no number in any.
pub fn empty_buckets(alloc: Global, kind: AggKind) -> Result<Buckets, Memory>
    requires { IsFineKind kind }
    ensures { IfOk result (λ buckets. buckets ≡ buckets_of kind []) }
{
    match kind {
        AggKind::Hist => Ok(no_counts()),
        AggKind::Lhist { .. } => {
            let counts = vec![in alloc; 0u64; bucket_count(kind)]?;
            Ok(Buckets::Lhist(Items::of(counts)))
        }
        _ => Ok(Buckets::Plain),
    }
}

fn no_counts() -> Buckets
    ensures { result ≡ Buckets.Hist (replicate 65 0) }
{
    Buckets::Hist([0; 65])
}

// As many buckets with no number in any.
pub fn reset_buckets(buckets: &mut Buckets)
    ensures { buckets.new ≡ emptied buckets.old }
{
    match buckets {
        Buckets::Plain => {}
        Buckets::Hist(_) => *buckets = no_counts(),
        Buckets::Lhist(counts) => counts.as_mut_slice().fill(0),
    }
}
