// Entries, made as steps once more and followed for all actors.
ghost use Rattle.std.specs.Prelude.{◌≡◌, ℕ, ◌<◌, ◌≤◌, ◌+◌, All, IsTrue, false, length, map, slice_index_or, IfOk};
ghost use Rattle.std.specs.List.{AllByRecursion};
ghost use Rattle.bt_core.specs.Kinds.{IsFineDecl};
ghost use Rattle.actor_plan.specs.Plans.{Plan};
ghost use Rattle.step_entries.specs.Blank.{blank};
ghost use Rattle.account_replay.specs.Replaying.{CanBeMade};
ghost use Rattle.account_follow.specs.declared.follow.Reached.{Reached as Reach};
ghost use Rattle.account_steps.specs.Answers.{IsFound};
ghost use Rattle.account_steps.specs.Plans.{CanFollow, HavePlans, replay_by};

use crate::ends::{Ended, end_of};
use crate::follow_all::follow_all;
use crate::stops::first_stop;
use account_follow::follow::Reached;
use account_replay::replay::replay;
use actor_plan::bodies::Bodies;
use bt_ast::attached::Attached;
use bt_core::item::Cell;
use bt_core::items::Items;
use bt_core::key::Key;
use bt_core::map::MapDecl;
use bt_core::memory::Memory;
use bt_core::step::Step;
use recordings::recording::Recording;
use std::alloc::Global;
use std::snapshot::Snapshot;

/// The steps that entries tell, and of each map the rows after these steps and how many of its updates they lost.
#[derive(Drop)]
pub struct Told {
    pub steps: Items<Step>,
    pub rows: Vec<Items<(Key, Cell)>>,
    pub lost: Vec<u64>,
}

/// What is found of entries: the place of the first wrong one, or that some actor has not done all of its program, or the steps that
/// they tell.
#[derive(Drop)]
pub enum Checked {
    Wrong(usize),
    Unfinished,
    Right(Told),
}

/// Whether all actors made all their steps on the list.
fn are_all_on(each: &[Reached]) -> bool
    ensures on { IsTrue result → (actor : ℕ) (d : Reach) → actor < length each.now → IsTrue (slice_index_or each.now actor d).on_list }
    ensures off { (result ≡ false) → (actor : ℕ) × ((d : Reach) × (actor < length each.now) × ((slice_index_or each.now actor d).on_list ≡ false)) }
{
    for reached in each {
        if !reached.on_list {
            return false;
        }
    }
    true
}

/// Checks entries that tell the steps of a run: they are made as steps once more, followed for all actors, and found wrong at a place,
/// unfinished, or to tell the steps that are handed back, with what is in the maps after them. The bodies are those of all actors, the last
/// of which is the main one.
///
/// [`Memory`] is the one error.
pub fn check_steps<B: Bodies>(
    alloc: Global,
    bodies: &mut [B],
    recording: &Recording,
    attached: &Attached,
    maps: &Items<MapDecl>,
    exits: bool,
    entries: Items<Step>,
) -> Result<Checked, Memory>
    ghost plans: { ℕ → Plan }
    requires can { CanFollow recording.now attached.now maps.now plans }
    requires plans { HavePlans B.plan plans (length recording.now.cpus) bodies.old }
    requires fine { All IsFineDecl maps.now }
    requires entries { AllByRecursion (CanBeMade (record { cpus = length recording.now.cpus; ticks = length attached.now.ticks; maps = maps.now })) entries }
    requires blank { map blank entries ≡ entries }
    ensures { IfOk result (λ found. IsFound (replay_by recording.now attached.now exits maps.now plans) entries found) }
{
    let total = entries.len();
    let cpus = recording.cpus.len() as u32;
    let ticks = attached.ticks.len() as u32;
    let made = replay(alloc, maps, cpus, ticks, entries)?;
    let steps = Snapshot::of(&made.list);
    let trails = follow_all(alloc, bodies, recording, attached, maps, exits, made.list)?;
    let stop = first_stop(
        trails.list.as_slice(),
        trails.each.as_slice(),
        trails.begin,
        trails.cpus,
        cpus,
    );
    if stop < total {
        return Ok(Checked::Wrong(stop));
    }
    if !are_all_on(trails.each.as_slice()) {
        return Ok(Checked::Unfinished);
    }
    let ended = Ended {
        cpus,
        ticks,
        made: steps,
        objects: made.objects.close(alloc)?,
    };
    let (rows, lost) = end_of(alloc, maps.as_slice(), &ended)?;
    Ok(Checked::Right(Told {
        steps: trails.list,
        rows,
        lost,
    }))
}
