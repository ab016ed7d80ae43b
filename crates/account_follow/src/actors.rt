// The programs of actors, followed through a list.
ghost use Rattle.std.specs.Prelude.{◌≡◌, ◌≤◌, ◌<◌, ◌++◌, [], ℕ, suc, length, map, take, slice_index_or, IfOk};
ghost use Rattle.std.specs.List.{AllByRecursion};
ghost use Rattle.bt_core.specs.declared.step.Step.{Step as MadeStep};
ghost use Rattle.bt_core.specs.declared.limits.TheConstants.{CPUS as MOST_CPUS, TICKS as MOST_TICKS};
ghost use Rattle.bt_core.specs.Ports.{IsReplyOf};
ghost use Rattle.actor_plan.specs.Agendas.{AreInTurn};
ghost use Rattle.actor_plan.specs.Programs.{actor_program, begin_program, end_program};
ghost use Rattle.actor_plan.specs.Ready.{IsReady};
ghost use Rattle.step_entries.specs.Blank.{blank_of};
ghost use Rattle.account_follow.specs.Followed.{IsFollowed};
ghost use Rattle.account_follow.specs.Settings.{setting_for};

use crate::follow::{Follower, Trail};
use actor_plan::bodies::Bodies;
use actor_plan::program::{run_begin, run_cpu, run_end};
use bt_ast::attached::Attached;
use bt_core::items::Items;
use bt_core::map::MapDecl;
use bt_core::memory::{Memory, TryCopy};
use bt_core::step::Step;
use recordings::recording::Recording;
use std::alloc::Global;

/// A port that follows a list for an actor, from a place that is the start or right behind a step of the actor.
pub(crate) fn follower_of(
    alloc: Global,
    recording: &Recording,
    attached: &Attached,
    maps: &Items<MapDecl>,
    actor: u32,
    list: Items<Step>,
    from: usize,
) -> Result<Follower, Memory>
    requires few_cpus { length recording.now.cpus ≤ MOST_CPUS }
    requires few_ticks { length attached.now.ticks ≤ MOST_TICKS }
    requires replies { AllByRecursion (λ (s : MadeStep). s.actor ≡ actor → IsReplyOf maps.now s.object s.op s.reply) list }
    requires within { from ≤ length list }
    requires first { (n : ℕ) (d : MadeStep) → from ≡ suc n → (slice_index_or list n d).actor ≡ actor }
    ensures { IfOk result (λ port. port ≡ record {
      setting = setting_for recording.now attached.now maps.now actor;
      list = list;
      from = from;
      at = from;
      strays = [];
    }) }
{
    let served = maps.try_copy(alloc)?;
    let actors = recording.cpus.len() as u32 + 1;
    let ticks = attached.ticks.len() as u32;
    Ok(Follower::new(alloc, actor, actors, ticks, served, list, from))
}

/// Follows a CPU's whole program through a list: gives the list with the CPU's items, how far it was followed, and whether the
/// program made all its steps on it.
///
/// [`Memory`] is the one error. The list is then gone, and the plan of the bodies is kept.
pub fn follow_cpu<B: Bodies>(
    alloc: Global,
    bodies: &mut B,
    recording: &Recording,
    attached: &Attached,
    maps: &Items<MapDecl>,
    cpu: u32,
    exits: bool,
    list: Items<Step>,
) -> Result<Trail, Memory>
    requires ready { IsReady (B.plan bodies.old) recording.now attached.now (setting_for recording.now attached.now maps.now cpu) }
    requires in_turn { AreInTurn attached.now.ticks }
    requires few_ticks { length attached.now.ticks ≤ MOST_TICKS }
    requires known { cpu < length recording.now.cpus }
    requires actor { (B.plan bodies.old).actor ≡ cpu }
    requires replies { AllByRecursion (λ (s : MadeStep). s.actor ≡ cpu → IsReplyOf maps.now s.object s.op s.reply) list }
    ensures followed { IfOk result (λ trail.
        IsFollowed (actor_program (B.plan bodies.old) exits recording.now attached.now) cpu trail.list trail.reached.at trail.reached.on_list) }
    ensures list { IfOk result (λ trail. map (blank_of cpu) trail.list ≡ map (blank_of cpu) list) }
    ensures plan_kept { B.plan bodies.new ≡ B.plan bodies.old }
{
    let mut port = follower_of(alloc, recording, attached, maps, cpu, list, 0)?;
    run_cpu(alloc, bodies, recording, attached, cpu, exits, &mut port)?;
    port.stands();
    Ok(port.into_trail())
}

/// Follows the bodies of `BEGIN` through a list for the main actor, as [`follow_cpu`] does.
pub fn follow_begin<B: Bodies>(
    alloc: Global,
    bodies: &mut B,
    recording: &Recording,
    attached: &Attached,
    maps: &Items<MapDecl>,
    main: u32,
    list: Items<Step>,
) -> Result<Trail, Memory>
    requires ready { IsReady (B.plan bodies.old) recording.now attached.now (setting_for recording.now attached.now maps.now main) }
    requires few_ticks { length attached.now.ticks ≤ MOST_TICKS }
    requires replies { AllByRecursion (λ (s : MadeStep). s.actor ≡ main → IsReplyOf maps.now s.object s.op s.reply) list }
    ensures followed { IfOk result (λ trail.
        IsFollowed (begin_program (B.plan bodies.old) recording.now attached.now) main trail.list trail.reached.at trail.reached.on_list) }
    ensures list { IfOk result (λ trail. map (blank_of main) trail.list ≡ map (blank_of main) list) }
    ensures plan_kept { B.plan bodies.new ≡ B.plan bodies.old }
{
    let mut port = follower_of(alloc, recording, attached, maps, main, list, 0)?;
    run_begin(alloc, bodies, recording, attached, &mut port)?;
    port.stands();
    Ok(port.into_trail())
}
