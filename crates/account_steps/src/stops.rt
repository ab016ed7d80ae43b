// The first step of a followed list that may not stand where it stands.
ghost use Rattle.std.specs.Prelude.{◌≡◌, ◌≢◌, ◌↔◌, ℕ, ◌≤◌, ◌<◌, IsTrue, false, length, slice_index_or};
ghost use Rattle.std.specs.List.{AllByRecursion};
ghost use Rattle.bt_core.specs.declared.step.Step.{Step as MadeStep};
ghost use Rattle.account_steps.specs.Stops.{AllMayStand, ArePassed, IsPassed, MayStand};

use account_follow::follow::Reached;
use bt_core::step::Step;

/// Whether all steps were made on the list, and before a place.
fn is_passed(reached: Reached, place: usize) -> bool
    ensures { IsTrue result ↔ IsPassed reached place }
{
    reached.on_list && reached.at <= place
}

/// How far two actors were followed together.
fn both(one: Reached, other: Reached) -> Reached
    ensures { (place : ℕ) → IsPassed result place ↔ (IsPassed one place × IsPassed other place) }
{
    Reached {
        at: one.at.max(other.at),
        on_list: one.on_list && other.on_list,
    }
}

/// How far all of these were followed together: all steps of all were made before the last of their places, or not all were made.
pub fn reached_by_all(each: &[Reached]) -> Reached
    ensures { (place : ℕ) → IsPassed result place ↔ ArePassed (length each.now) each.now place }
{
    let mut all = Reached {
        at: 0,
        on_list: true,
    };
    for reached in each {
        all = both(all, *reached);
    }
    all
}

/// Whether a step may stand at a place, by how far each actor, `BEGIN` and all CPUs were followed.
fn may_stand(
    step: &Step,
    place: usize,
    each: &[Reached],
    begin: Reached,
    cpus: Reached,
    main: u32,
) -> bool
    requires { step.now.actor < length each.now }
    ensures { IsTrue result ↔ MayStand main each.now begin cpus place step.now }
{
    if each[step.actor as usize].at <= place {
        false
    } else if step.actor == main {
        !is_passed(begin, place) || is_passed(cpus, place)
    } else {
        is_passed(begin, place)
    }
}

/// The place of the first step that may not stand where it stands, or the length of the list.
pub fn first_stop(
    list: &[Step],
    each: &[Reached],
    begin: Reached,
    cpus: Reached,
    main: u32,
) -> usize
    requires { AllByRecursion (λ (s : MadeStep). s.actor < length each.now) list.now }
    ensures within { result ≤ length list.now }
    ensures before { AllMayStand main each.now begin cpus result list.now }
    ensures stop { (d : MadeStep) → result < length list.now → MayStand main each.now begin cpus result (slice_index_or list.now result d) → ⊥ }
{
    for (place, step) in list.iter().enumerate() {
        if !may_stand(step, place, each, begin, cpus, main) {
            return place;
        }
    }
    list.len()
}
