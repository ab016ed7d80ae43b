// The main actor's program, followed through a list.
ghost use Rattle.std.specs.Prelude.{◌≡◌, ◌≤◌, length, map, IfOk};
ghost use Rattle.std.specs.List.{AllByRecursion};
ghost use Rattle.bt_core.specs.declared.step.Step.{Step as MadeStep};
ghost use Rattle.bt_core.specs.declared.limits.TheConstants.{TICKS as MOST_TICKS};
ghost use Rattle.bt_core.specs.Ports.{IsReplyOf};
ghost use Rattle.actor_plan.specs.Programs.{actor_program, begin_program};
ghost use Rattle.actor_plan.specs.Ready.{IsReady};
ghost use Rattle.step_entries.specs.Blank.{blank_of};
ghost use Rattle.account_follow.specs.Followed.{IsFollowed};
ghost use Rattle.account_follow.specs.Settings.{setting_for};

use crate::actors::{follow_begin, follower_of};
use crate::follow::{Reached, Trail};
use actor_plan::bodies::Bodies;
use actor_plan::program::run_end;
use bt_ast::attached::Attached;
use bt_core::items::Items;
use bt_core::map::MapDecl;
use bt_core::memory::Memory;
use bt_core::step::Step;
use recordings::recording::Recording;
use std::alloc::Global;

/// A list with the items of the main actor, and how far it was followed for `BEGIN` and for the whole program.
#[derive(Drop)]
pub struct MainTrail {
    pub list: Items<Step>,
    pub begin: Reached,
    pub whole: Reached,
}

/// Follows the main actor's whole program through a list: the bodies of `BEGIN`, and then those of `END` behind them. Where those of
/// `BEGIN` did not make all their steps on the list, those of `END` are not followed, since they would make none on it.
///
/// [`Memory`] is the one error. The list is then gone, and the plan of the bodies is kept.
pub fn follow_main<B: Bodies>(
    alloc: Global,
    bodies: &mut B,
    recording: &Recording,
    attached: &Attached,
    maps: &Items<MapDecl>,
    main: u32,
    exits: bool,
    list: Items<Step>,
) -> Result<MainTrail, Memory>
    requires ready { IsReady (B.plan bodies.old) recording.now attached.now (setting_for recording.now attached.now maps.now main) }
    requires few_ticks { length attached.now.ticks ≤ MOST_TICKS }
    requires main { main ≡ length recording.now.cpus }
    requires actor { (B.plan bodies.old).actor ≡ main }
    requires replies { AllByRecursion (λ (s : MadeStep). s.actor ≡ main → IsReplyOf maps.now s.object s.op s.reply) list }
    ensures begin { IfOk result (λ trail.
        IsFollowed (begin_program (B.plan bodies.old) recording.now attached.now) main trail.list trail.begin.at trail.begin.on_list) }
    ensures whole { IfOk result (λ trail.
        IsFollowed (actor_program (B.plan bodies.old) exits recording.now attached.now) main trail.list trail.whole.at trail.whole.on_list) }
    ensures list { IfOk result (λ trail. map (blank_of main) trail.list ≡ map (blank_of main) list) }
    ensures plan_kept { B.plan bodies.new ≡ B.plan bodies.old }
{
    let Trail {
        list,
        reached: begin,
    } = follow_begin(alloc, bodies, recording, attached, maps, main, list)?;
    if !begin.on_list {
        return Ok(MainTrail {
            list,
            begin,
            whole: begin,
        });
    }
    let mut port = follower_of(alloc, recording, attached, maps, main, list, begin.at)?;
    run_end(alloc, bodies, recording, attached, &mut port)?;
    port.stands();
    let Trail { list, reached } = port.into_trail();
    Ok(MainTrail {
        list,
        begin,
        whole: reached,
    })
}
