// The programs of all actors, followed through a list.
ghost use Rattle.std.specs.Prelude.{◌≡◌, ℕ, ◌<◌, length, map, slice_index_or, IfOk};
ghost use Rattle.actor_plan.specs.Plans.{Plan};
ghost use Rattle.actor_plan.specs.Programs.{actor_program};
ghost use Rattle.step_entries.specs.Blank.{without_item};
ghost use Rattle.account_follow.specs.declared.follow.Reached.{Reached as Reach};
ghost use Rattle.account_follow.specs.Followed.{IsFollowed};
ghost use Rattle.account_steps.specs.Stops.{AreReached};
ghost use Rattle.account_steps.specs.Plans.{CanFollow, HaveOwnReplies, HavePlans, replay_by};

use crate::stops::reached_by_all;
use account_follow::actors::follow_cpu;
use account_follow::follow::{Reached, Trail};
use account_follow::main_actor::{MainTrail, follow_main};
use actor_plan::bodies::Bodies;
use bt_ast::attached::Attached;
use bt_core::items::Items;
use bt_core::map::MapDecl;
use bt_core::memory::Memory;
use bt_core::step::Step;
use recordings::recording::Recording;
use std::alloc::Global;

/// A list with the items of the CPUs, and how far it was followed for each of them.
#[derive(Drop)]
pub struct CpuTrails {
    pub list: Items<Step>,
    pub each: Vec<Reached>,
}

/// Follows the programs of all CPUs through a list, one after the other. Gives the list with their items, and how far it was followed
/// for each.
///
/// [`Memory`] is the one error. The list is then gone.
pub fn follow_cpus<B: Bodies>(
    alloc: Global,
    bodies: &mut [B],
    recording: &Recording,
    attached: &Attached,
    maps: &Items<MapDecl>,
    exits: bool,
    list: Items<Step>,
) -> Result<CpuTrails, Memory>
    ghost plans: { ℕ → Plan }
    requires can { CanFollow recording.now attached.now maps.now plans }
    requires plans { HavePlans B.plan plans (length recording.now.cpus) bodies.old }
    requires replies { HaveOwnReplies maps.now list }
    ensures count { IfOk result (λ trails. length trails.each.items ≡ length recording.now.cpus) }
    ensures followed { IfOk result (λ trails. (cpu : ℕ) (d : Reach) → cpu < length recording.now.cpus →
        IsFollowed (actor_program (plans cpu) exits recording.now attached.now) cpu trails.list
        (slice_index_or trails.each.items cpu d).at (slice_index_or trails.each.items cpu d).on_list) }
    ensures alike { IfOk result (λ trails. map without_item trails.list ≡ map without_item list) }
    ensures replies { IfOk result (λ trails. HaveOwnReplies maps.now trails.list) }
    ensures plans_kept { IfOk result (λ trails. HavePlans B.plan plans (length recording.now.cpus) bodies.new) }
{
    let mut list = list;
    let mut each = Vec::new(alloc);
    for cpu in 0..recording.cpus.len() as u32 {
        let trail = follow_cpu(
            alloc,
            &mut bodies[cpu as usize],
            recording,
            attached,
            maps,
            cpu,
            exits,
            list,
        )?;
        let Trail {
            list: next,
            reached,
        } = trail;
        list = next;
        each.push(reached)?;
    }
    Ok(CpuTrails { list, each })
}

/// A list with the items of all actors, and how far it was followed: for each actor, the last of which is the main one, for `BEGIN`,
/// and for all CPUs together.
#[derive(Drop)]
pub struct AllTrails {
    pub list: Items<Step>,
    pub each: Vec<Reached>,
    pub begin: Reached,
    pub cpus: Reached,
}

/// Follows the programs of all actors through a list: those of the CPUs, and then that of the main actor.
///
/// [`Memory`] is the one error. The list is then gone.
pub fn follow_all<B: Bodies>(
    alloc: Global,
    bodies: &mut [B],
    recording: &Recording,
    attached: &Attached,
    maps: &Items<MapDecl>,
    exits: bool,
    list: Items<Step>,
) -> Result<AllTrails, Memory>
    ghost plans: { ℕ → Plan }
    requires can { CanFollow recording.now attached.now maps.now plans }
    requires plans { HavePlans B.plan plans (length recording.now.cpus) bodies.old }
    requires replies { HaveOwnReplies maps.now list }
    ensures reached { IfOk result (λ trails. AreReached (replay_by recording.now attached.now exits maps.now plans)
        trails.list trails.each.items trails.begin trails.cpus) }
    ensures alike { IfOk result (λ trails. map without_item trails.list ≡ map without_item list) }
{
    let CpuTrails { list, each } = follow_cpus(
        alloc, bodies, recording, attached, maps, exits, list,
    )?;
    let cpus = reached_by_all(each.as_slice());
    let main = recording.cpus.len() as u32;
    let MainTrail { list, begin, whole } = follow_main(
        alloc,
        &mut bodies[main as usize],
        recording,
        attached,
        maps,
        main,
        exits,
        list,
    )?;
    let mut each = each;
    each.push(whole)?;
    Ok(AllTrails {
        list,
        each,
        begin,
        cpus,
    })
}
