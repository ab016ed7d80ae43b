// A woven list by its places, for who asks: its steps one by one.
ghost use Rattle.std.specs.Prelude.{◌≡◌, length, drop, slice_get, IfOk, OnOk, OnErr};
ghost use Rattle.weave.specs.Spots.{step_at};

use crate::spots::{Spot, spots_in_order};
use crate::woven::Woven;
use bt_core::memory::Memory;
use bt_core::step::Step;
use std::alloc::Global;
use std::marker::Model;
use step_list::list::StepList;

/// The steps of a woven list by their places. Contracts see the list.
///
/// The steps stay in the lists that they were made in. Beside these there is where each step lies, in 8 bytes a step.
pub struct Ordered<'a> {
    lists: &'a [StepList],
    spots: Vec<Spot>,
}

// Written out, so that it is one call wherever such a value is let go.
impl<'a> Drop for Ordered<'a> {
    fn drop(self) {
        let Self { lists: _, spots: _ } = self;
    }
}

impl<'a> Model for Ordered<'a> {
    ghost use Rattle.std.specs.Prelude.{List};
    ghost use Rattle.bt_core.specs.declared.step.Step.{Step};
    ghost use Rattle.weave.specs.Spots.{steps_at, AreSpots};

    ghost Value = { List Step };

    ghost view = { λ o. steps_at o.lists.now o.spots.items };

    ghost invariant = { λ o. AreSpots o.lists.now o.spots.items };
}

impl Woven {
    /// Its steps by their places. It takes time n log n in the number of the steps, and while it is made 32 bytes a step.
    ///
    /// Answers [`Memory`] only where there is no room, or a list has more steps than 32 bits count.
    pub fn in_order<'a>(&'a self, alloc: Global) -> Result<Ordered<'a>, Memory>
        ensures { IfOk result (λ ordered. ordered ≡ self.now) }
    {
        let lists = self.lists();
        let spots = spots_in_order(alloc, lists)?;
        Ok(Ordered { lists, spots })
    }
}

impl<'a> Ordered<'a> {
    /// How many steps it has.
    pub fn len(&self) -> usize
        ensures { result ≡ length self.now }
    {
        self.spots.len()
    }

    /// A copy of the step at a place, counted from 0, or `None` past the last. [`Memory`] where there is no room for the copy.
    ///
    /// It takes the time of the copy alone.
    pub fn get(&self, alloc: Global, place: usize) -> Result<Option<Step>, Memory>
        ensures { IfOk result (λ step. step ≡ slice_get self.now place) }
    {
        match self.spots.get(place) {
            None => Ok(None),
            Some(spot) => copy_at(alloc, self.lists, *spot),
        }
    }

    /// All its steps, one after another.
    pub fn steps<'b>(&'b self) -> Steps<'a, 'b>
        ensures { result ≡ self.now }
    {
        Steps {
            ordered: self,
            next: 0,
        }
    }
}

/// Steps that are gone over, one after another. Contracts see those that are left.
#[derive(Drop)]
pub struct Steps<'a, 'b> {
    ordered: &'b Ordered<'a>,
    next: usize,
}

impl<'a, 'b> Model for Steps<'a, 'b> {
    ghost use Rattle.std.specs.Prelude.{List, drop};
    ghost use Rattle.bt_core.specs.declared.step.Step.{Step};

    ghost Value = { List Step };

    ghost view = { λ s. drop s.next s.ordered.now };
}

impl<'a, 'b> Steps<'a, 'b> {
    /// A copy of the next step, or `None` behind the last. After [`Memory`] the step is still the next one.
    pub fn next(&mut self, alloc: Global) -> Result<Option<Step>, Memory>
        ensures step { IfOk result (λ step. step ≡ slice_get self.old 0) }
        ensures left { OnOk result (self.new ≡ drop 1 self.old) }
        ensures memory { OnErr result (self.new ≡ self.old) }
    {
        let step = self.ordered.get(alloc, self.next)?;
        if self.next < self.ordered.len() {
            self.next += 1;
        }
        Ok(step)
    }
}

/// A copy of the step at a spot, or `None` where none lies there. [`Memory`] where there is no room for the copy.
fn copy_at(alloc: Global, lists: &[StepList], spot: Spot) -> Result<Option<Step>, Memory>
    ensures { IfOk result (λ step. step ≡ step_at lists.now spot) }
{
    match lists.get(spot.list as usize) {
        None => Ok(None),
        Some(list) => list.get(alloc, spot.place as usize),
    }
}
