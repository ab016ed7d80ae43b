// The buckets of histograms.
ghost use Rattle.std.specs.Prelude.{◌≡◌, ◌++◌, ◌<◌, ◌-◌, [], ◌∷◌, map, cond, length, slice_index, string_bytes, IfOk, OnOk};
ghost use Rattle.map_printer.specs.Buckets.{label_of, HasLabel, FitsCounts};
ghost use Rattle.serde_json.specs.View.{view};
ghost use Rattle.json_out.specs.Rows.{bucket_data, buckets};
ghost use Rattle.json_out.specs.Texts.{text_of_bytes};

use crate::objects::pair;
use crate::text::text_of;
use bt_core::map::AggKind;
use bt_core::memory::Memory;
use map_printer::hist_text::{one_if_some, some_counts};
use map_printer::labels::write_label;
use serde_json::{Value as Json, push};
use std::alloc::Global;

/// The label of a bucket as text, where `last` is the last bucket.
fn label_text(alloc: Global, kind: AggKind, last: usize, bucket: usize) -> Result<String, Memory>
    requires { HasLabel kind last bucket }
    ensures { IfOk result (λ text. string_bytes text ≡ text_of_bytes (label_of kind last bucket)) }
{
    let mut label = Vec::new(alloc);
    write_label(&mut label, kind, last, bucket)?;
    text_of(alloc, &label)
}

/// A bucket's count and label, where `last` is the last bucket.
fn bucket_value(
    alloc: Global,
    kind: AggKind,
    last: usize,
    bucket: usize,
    count: u64,
) -> Result<Json, Memory>
    requires { HasLabel kind last bucket }
    ensures { IfOk result (λ value. view value ≡ bucket_data (label_of kind last bucket) count) }
{
    let label = label_text(alloc, kind, last, bucket)?;
    pair(
        alloc,
        "count",
        Json::from(count),
        "label",
        Json::from(label),
    )
}

/// Adds the bucket where it is shown.
fn push_shown(
    list: &mut Vec<Json>,
    alloc: Global,
    kind: AggKind,
    counts: &[u64],
    bucket: usize,
    shown: bool,
) -> Result<(), Memory>
    requires here { bucket < length counts.now }
    requires fits { FitsCounts kind (length counts.now) }
    ensures { OnOk result (map view list.new.items ≡ map view list.old.items
        ++ cond shown (bucket_data (label_of kind (length counts.now - 1) bucket) (slice_index counts.now bucket) ∷ []) []) }
{
    if shown {
        let last = counts.len() - 1;
        let value = bucket_value(alloc, kind, last, bucket, counts[bucket])?;
        push(list, value)?;
    }
    Ok(())
}

/// The buckets of a histogram, from the first to the last count that is not 0.
pub fn bucket_list(alloc: Global, kind: AggKind, counts: &[u64]) -> Result<Vec<Json>, Memory>
    requires { FitsCounts kind (length counts.now) }
    ensures { IfOk result (λ list. map view list.items ≡ buckets kind counts.now) }
{
    let some = some_counts(counts);
    let mut list = Vec::new(alloc);
    let mut seen = 0;
    for bucket in 0..counts.len() {
        let before = seen;
        seen += one_if_some(counts[bucket]);
        let shown = (0 < seen) & (before < some);
        push_shown(&mut list, alloc, kind, counts, bucket, shown)?;
    }
    Ok(list)
}
