// A woven list as a vector of its steps, for who asks for all of them.
ghost use Rattle.std.specs.Prelude.{◌≡◌, IfOk, OnOk};
ghost use Rattle.weave.specs.Listed.{listed};
ghost use Rattle.weave.specs.Order.{comes_before};
ghost use Rattle.weave.specs.Ranked.{ranked};

use crate::woven::Woven;
use bt_core::memory::Memory;
use bt_core::step::Step;
use std::alloc::Global;
use step_list::list::StepList;

/// Copies of the steps of these lists, list by list.
fn gathered(alloc: Global, lists: &[StepList]) -> Result<Vec<Step>, Memory>
    ensures { IfOk result (λ steps. steps.items ≡ listed lists.now) }
{
    let mut steps = Vec::new(alloc);
    for list in lists {
        list.copy_to(alloc, &mut steps)?;
    }
    Ok(steps)
}

/// Puts in order by stamp, and those with one stamp by object.
fn put_in_order(steps: &mut Vec<Step>) -> Result<(), Memory>
    ensures { OnOk result (steps.new.items ≡ ranked comes_before steps.old.items) }
{
    steps.sort_by_key(|step| (step.stamp, step.object))?;
    Ok(())
}

impl Woven {
    /// Copies of all its steps, in their order. It takes 208 bytes a step, and time n log n in their number: ask once for all.
    pub fn to_vec(&self, alloc: Global) -> Result<Vec<Step>, Memory>
        ensures { IfOk result (λ steps. steps.items ≡ self.now) }
    {
        let mut steps = gathered(alloc, self.lists())?;
        put_in_order(&mut steps)?;
        Ok(steps)
    }
}
