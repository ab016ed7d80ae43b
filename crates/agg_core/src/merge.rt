// Two aggregates into one.
ghost use Rattle.std.specs.Prelude.{◌≡◌};
ghost use Rattle.std.specs.Int.{int_min, int_max};
ghost use Rattle.agg_core.specs.Aggregates.{agg_merged, either, both_buckets, both_counts};

use bt_core::agg::{Agg, Buckets};

// Takes in what another aggregate of the same kind has gathered.
pub fn take_in(agg: &mut Agg, other: &Agg)
    ensures { agg.new ≡ agg_merged agg.old other.now }
{
    agg.count = agg.count.wrapping_add(other.count);
    agg.sum = agg.sum.wrapping_add(other.sum);
    agg.least = lesser(agg.least, other.least);
    agg.greatest = greater(agg.greatest, other.greatest);
    merge_buckets(&mut agg.buckets, &other.buckets);
}

// The lesser number, or the one that is there.
pub fn lesser(one: Option<i64>, other: Option<i64>) -> Option<i64>
    ensures { result ≡ either int_min one other }
{
    match (one, other) {
        (None, least) => least,
        (Some(m), None) => Some(m),
        (Some(m), Some(n)) => Some(m.min(n)),
    }
}

// The greater number, or the one that is there.
pub fn greater(one: Option<i64>, other: Option<i64>) -> Option<i64>
    ensures { result ≡ either int_max one other }
{
    match (one, other) {
        (None, greatest) => greatest,
        (Some(m), None) => Some(m),
        (Some(m), Some(n)) => Some(m.max(n)),
    }
}

fn merge_buckets(buckets: &mut Buckets, others: &Buckets)
    ensures { buckets.new ≡ both_buckets buckets.old others.now }
{
    match (buckets, others) {
        (Buckets::Hist(counts), Buckets::Hist(more)) => merge_counts(counts, more),
        (Buckets::Lhist(counts), Buckets::Lhist(more)) => merge_counts(
            counts.as_mut_slice(),
            more.as_slice(),
        ),
        _ => {}
    }
}

fn merge_counts(counts: &mut [u64], more: &[u64])
    ensures { counts.new ≡ both_counts counts.old more.now }
{
    for at in 0..counts.len().min(more.len()) {
        counts[at] = counts[at].wrapping_add(more[at]);
    }
}
