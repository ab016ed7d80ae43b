// What an aggregation map gathers under a key.
ghost use Rattle.std.specs.Prelude.{◌≡◌, ◌++◌, ◌∷◌, [], IfOk, List, ℤ};
ghost use Rattle.bt_core.specs.declared.map.AggKind.{AggKind};
ghost use Rattle.bt_core.specs.Kinds.{IsFineKind};
ghost use Rattle.agg_core.specs.Aggregates.{aggregate, agg_merged};

use crate::gather::{empty_buckets, reset_buckets, take_number};
use crate::merge::take_in;
use bt_core::agg::Agg;
use bt_core::map::AggKind;
use bt_core::memory::Memory;
use std::alloc::Global;

/// What is gathered of the numbers that were added, by the kind of the map.
pub trait Aggregation: Drop {
    /// Its kind.
    ghost kind_of: { Self → AggKind };

    /// What is gathered of a list of numbers.
    ghost aggregate: { AggKind → List ℤ → Self };

    /// What is gathered in two of one kind.
    ghost agg_merged: { Self → Self → Self };

    /// The aggregate of no numbers.
    fn empty(alloc: Global, kind: AggKind) -> Result<Self, Memory>
        requires { IsFineKind kind }
        ensures { IfOk result (λ agg. agg ≡ aggregate kind []) };

    /// Takes one number more, which takes no memory.
    fn add(&mut self, n: i64)
        ensures kind { kind_of self.new ≡ kind_of self.old }
        ensures added { (kind : AggKind) (ns : List ℤ) → IsFineKind kind → self.old ≡ aggregate kind ns → self.new ≡ aggregate kind (ns ++ n ∷ []) };

    /// Takes in what another of the same kind has gathered, which takes no memory.
    fn merge(&mut self, other: &Self)
        requires { kind_of self.old ≡ kind_of other.now }
        ensures { self.new ≡ agg_merged self.old other.now };

    /// Forgets the numbers, which takes no memory.
    fn reset(&mut self)
        ensures { (kind : AggKind) (ns : List ℤ) → self.old ≡ aggregate kind ns → self.new ≡ aggregate kind [] };
}

impl Aggregation for Agg {
    ghost kind_of = { λ agg. agg.kind };

    ghost aggregate = { aggregate };

    ghost agg_merged = { agg_merged };

    fn empty(alloc: Global, kind: AggKind) -> Result<Agg, Memory> {
        let buckets = empty_buckets(alloc, kind)?;
        Ok(Agg {
            kind,
            count: 0,
            sum: 0,
            least: None,
            greatest: None,
            buckets,
        })
    }

    fn add(&mut self, n: i64) {
        take_number(self, n);
    }

    fn merge(&mut self, other: &Agg) {
        take_in(self, other);
    }

    fn reset(&mut self) {
        self.count = 0;
        self.sum = 0;
        self.least = None;
        self.greatest = None;
        reset_buckets(&mut self.buckets);
    }
}
