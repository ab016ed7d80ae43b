// Where the steps of lists lie, in their order.
ghost use Rattle.std.specs.Prelude.{◌≡◌, ◌≤◌, ◌^◌, ◌++◌, map, slice_get, IfOk, OnErr, OnOk};
ghost use Rattle.step_list.specs.Lists.{steps_in};
ghost use Rattle.weave.specs.Keyed.{keyed_at, keyed_from, keyed_before, keyed_lists};
ghost use Rattle.weave.specs.Ranked.{ranked};

use bt_core::memory::Memory;
use bt_core::step::ObjectId;
use std::alloc::Global;
use step_list::list::StepList;

/// Where a step lies: in this list, at this place, each counted from 0.
#[derive(Clone, Copy)]
pub struct Spot {
    pub list: u32,
    pub place: u32,
}

/// A spot, with what its step is put in order by.
#[derive(Clone, Copy)]
pub(crate) struct Keyed {
    pub(crate) stamp: u64,
    pub(crate) object: ObjectId,
    pub(crate) spot: Spot,
}

/// The spots of all steps of these lists, in the order of the steps.
///
/// [`Memory`] where there is no room, or a number of lists or of steps of one list does not fit in 32 bits.
pub(crate) fn spots_in_order(alloc: Global, lists: &[StepList]) -> Result<Vec<Spot>, Memory>
    ensures { IfOk result (λ spots. spots.items ≡ map (λ keyed. keyed.spot) (ranked keyed_before (keyed_lists 0 lists.now))) }
{
    let mut found = gathered(alloc, lists)?;
    put_in_order(&mut found)?;
    spots_of(alloc, found.as_slice())
}

/// A number in 32 bits. [`Memory`] where it does not fit.
fn small(number: usize) -> Result<u32, Memory>
    ensures same { IfOk result (λ it. it ≡ number) }
    ensures beyond { OnErr result (2 ^ 32 ≤ number) }
{
    Ok(u32::try_from(number)?)
}

/// The spots of these lists, list by list.
fn gathered(alloc: Global, lists: &[StepList]) -> Result<Vec<Keyed>, Memory>
    ensures { IfOk result (λ found. found.items ≡ keyed_lists 0 lists.now) }
{
    let count = small(lists.len())?;
    let mut found = Vec::new(alloc);
    for number in 0..count {
        add_list(alloc, number, &lists[number as usize], &mut found)?;
    }
    Ok(found)
}

/// Puts the spots of a list with this number behind those that there are, in the order of its places.
fn add_list(
    alloc: Global,
    number: u32,
    list: &StepList,
    found: &mut Vec<Keyed>,
) -> Result<(), Memory>
    ensures { OnOk result (found.new.items ≡ found.old.items ++ keyed_from number 0 (steps_in list.now)) }
{
    let count = small(list.len())?;
    for place in 0..count {
        add_step(alloc, number, list, place, found)?;
    }
    Ok(())
}

/// Puts the spot of the step at a place of such a list behind those that there are.
fn add_step(
    alloc: Global,
    number: u32,
    list: &StepList,
    place: u32,
    found: &mut Vec<Keyed>,
) -> Result<(), Memory>
    ensures { OnOk result (found.new.items ≡ found.old.items ++ keyed_at number place (slice_get (steps_in list.now) place)) }
{
    match list.get(alloc, place as usize)? {
        None => Ok(()),
        Some(step) => {
            found.push(Keyed {
                stamp: step.stamp,
                object: step.object,
                spot: Spot {
                    list: number,
                    place,
                },
            })?;
            Ok(())
        }
    }
}

/// Puts in order by stamp, and those with one stamp by object.
fn put_in_order(found: &mut Vec<Keyed>) -> Result<(), Memory>
    ensures { OnOk result (found.new.items ≡ ranked keyed_before found.old.items) }
{
    found.sort_by_key(|keyed| (keyed.stamp, keyed.object))?;
    Ok(())
}

/// The spots alone.
fn spots_of(alloc: Global, found: &[Keyed]) -> Result<Vec<Spot>, Memory>
    ensures { IfOk result (λ spots. spots.items ≡ map (λ keyed. keyed.spot) found.now) }
{
    let mut spots = Vec::with_capacity(alloc, found.len())?;
    for keyed in found {
        spots.push(keyed.spot)?;
    }
    Ok(spots)
}
