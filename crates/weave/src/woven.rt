// Lists of steps as one list in order.
ghost use Rattle.std.specs.Prelude.{◌≡◌, ◌≤◌, ◌^◌, length, IfOk, OnErr};
ghost use Rattle.std.specs.List.Sorted.{IsPermutation};
ghost use Rattle.step_list.specs.HeldReplies.{AreHeldReplies};
ghost use Rattle.weave.specs.Listed.{listed};
ghost use Rattle.weave.specs.Order.{InOrder, comes_before};
ghost use Rattle.weave.specs.Ranked.{ranked};

use bt_core::memory::{Memory, fitting};
use std::fmt;
use std::marker::Model;
use step_list::list::StepList;

/// All steps of a run in order: by stamp, and those with one stamp by object. Contracts see the one list.
///
/// The steps stay in the lists that they were made in: none is merged, sorted or copied.
pub struct Woven {
    lists: Vec<StepList>,
    len: usize,
}

// Written out, so that it is one call wherever such a value is let go.
impl Drop for Woven {
    fn drop(self) {
        let Self { lists: _, len: _ } = self;
    }
}

impl Model for Woven {
    ghost use Rattle.std.specs.Prelude.{◌≡◌, List, length};
    ghost use Rattle.bt_core.specs.declared.step.Step.{Step};
    ghost use Rattle.weave.specs.Listed.{listed};
    ghost use Rattle.weave.specs.Order.{comes_before};
    ghost use Rattle.weave.specs.Ranked.{ranked};

    ghost Value = { List Step };

    ghost view = { λ w. ranked comes_before (listed w.lists.items) };

    ghost invariant = { λ w. w.len ≡ length (listed w.lists.items) };
}

impl Woven {
    /// The steps of these lists, each once.
    ///
    /// Answers [`Memory`] only where the number of the steps does not fit; the lists are dropped then.
    pub fn of(lists: Vec<StepList>) -> Result<Woven, Memory>
        ensures steps { IfOk result (λ woven. IsPermutation (listed lists.items) woven) }
        ensures order { IfOk result (λ woven. InOrder woven) }
    {
        let len = count(lists.as_slice())?;
        Ok(Woven { lists, len })
    }

    /// The lists.
    pub(crate) fn lists(&self) -> &[StepList]
        ensures { self.now ≡ ranked comes_before (listed result.now) }
    {
        self.lists.as_slice()
    }

    /// How many steps it has.
    pub fn len(&self) -> usize
        ensures { result ≡ length self.now }
    {
        self.len
    }

    /// The values that are replied in its steps are as a program holds them. Nothing runs.
    pub fn replies_are_held(&self)
        ensures { AreHeldReplies self.now }
    {
        let _lists = self.lists();
    }
}

impl fmt::Debug for Woven {
    fn fmt<W: fmt::Write>(&self, f: &mut fmt::Formatter<W>) -> fmt::Result {
        write!(f, "Woven of {} steps", self.len)
    }
}

/// How many steps lists have together. [`Memory`] where the number does not fit.
fn count(lists: &[StepList]) -> Result<usize, Memory>
    ensures counts { IfOk result (λ n. n ≡ length (listed lists.now)) }
    ensures beyond { OnErr result (2 ^ 64 ≤ length (listed lists.now)) }
{
    let mut sum: usize = 0;
    for list in lists {
        sum = fitting(sum.checked_add(list.len()))?;
    }
    Ok(sum)
}
