// A list that mostly has one item.
ghost use Rattle.std.specs.Prelude.{◌≡◌, ◌∷◌, []};

use crate::items::Items;
use crate::memory::{Memory, TryCopy};
use std::alloc::Global;
use std::cmp::Ordering;
use std::hash::{Hash, Hasher};
use std::marker::Model;

/// Where the items lie.
#[derive(Drop)]
enum Held<T> {
    One([T; 1]),
    Many(Items<T>),
}

/// A list of items that mostly has one. One item lies in the list itself and takes no memory; any others lie in a vector.
///
/// Contracts see the list of its items and nothing else, so that two lists with the same items are one value.
#[derive(Drop)]
pub struct Few<T> {
    held: Held<T>,
}

impl<T> Model for Few<T> {
    ghost use Rattle.std.specs.Prelude.{List};
    ghost use Rattle.std.specs.Coded.{coded_list};
    ghost use Rattle.bt_core.specs.Few.{held_items};

    ghost Value = { List T };

    ghost coded = { coded_list T.code };

    ghost view = { λ s. held_items s.held };
}

impl<T> Few<T> {
    /// The list of one item.
    pub fn one(item: T) -> Few<T>
        ensures { result ≡ item ∷ [] }
    {
        Few {
            held: Held::One([item]),
        }
    }

    /// The list of a vector's items.
    pub fn of(items: Vec<T>) -> Few<T>
        ensures { result ≡ items.items }
    {
        Few {
            held: Held::Many(Items::of(items)),
        }
    }

    /// Its items as a slice.
    pub fn as_slice(&self) -> &[T]
        ensures { result.now ≡ self.now }
    {
        match &self.held {
            Held::One(item) => item,
            Held::Many(items) => items.as_slice(),
        }
    }
}

impl<T: TryCopy> TryCopy for Few<T> {
    ghost use Rattle.std.specs.Prelude.{◌≡◌, IfOk};

    fn try_copy(&self, alloc: Global) -> Result<Few<T>, Memory> {
        match &self.held {
            Held::One(item) => Ok(Few::one(item[0].try_copy(alloc)?)),
            Held::Many(items) => Ok(Few::of(items.try_copy(alloc)?.into_vec())),
        }
    }
}

impl<T: PartialEq> PartialEq for Few<T> {
    ghost use Rattle.std.specs.Cmp.Lexicographic.{pointwise, lists_per};

    ghost eq = { λ x y. pointwise T.eq x y };

    ghost laws = { lists_per T.laws };

    fn eq(&self, other: &Self) -> bool {
        match (&self.held, &other.held) {
            (Held::One(mine), Held::One(theirs)) => mine[0] == theirs[0],
            _ => self.as_slice() == other.as_slice(),
        }
    }
}

impl<T: Eq> Eq for Few<T> {
    ghost use Rattle.std.specs.Cmp.Lexicographic.{lists_equiv};

    ghost laws = { lists_equiv T.Eq.laws };
}

impl<T: PartialOrd> PartialOrd for Few<T> {
    ghost use Rattle.std.specs.Cmp.Lexicographic.{slice_partial_cmp, lists_po};

    ghost partial_cmp = { λ x y. slice_partial_cmp T.partial_cmp x y };

    ghost laws = { lists_po T.PartialOrd.laws };

    fn partial_cmp(&self, other: &Self) -> Option<Ordering> {
        self.as_slice().partial_cmp(&other.as_slice())
    }
}

impl<T: Ord> Ord for Few<T> {
    ghost use Rattle.std.specs.Cmp.Lexicographic.{slice_cmp, lists_total, lists_agrees, lists_ties};

    ghost cmp = { λ x y. slice_cmp T.cmp x y };

    ghost total = { lists_total T.total };

    ghost matches_partial_cmp = { lists_agrees T.matches_partial_cmp };

    ghost matches_eq = { lists_ties T.cmp T.matches_eq };

    fn cmp(&self, other: &Self) -> Ordering {
        self.as_slice().cmp(&other.as_slice())
    }
}

impl<T: Hash> Hash for Few<T> {
    ghost use Rattle.std.specs.Hash as fed;
    ghost use Rattle.std.specs.Hash.{on_Alike, items_Alike};

    ghost hash_input = { λ s. fed.slice T.hash_input s };

    ghost respects_eq = { (on_Alike (λ s. s) (items_Alike (record { fed = T.respects_eq }))).fed };

    fn hash<H: Hasher>(&self, state: &mut H) {
        self.as_slice().hash(state);
    }
}
