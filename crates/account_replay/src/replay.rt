// Entries made as steps, one after another.
ghost use Rattle.std.specs.Prelude.{◌≡◌, ◌+◌, ◌<◌, ◌≤◌, ◌^◌, [], List, All, length, map, take, slice_index_or, slice_set, IsTrue, IfOk, OnOk, true, false};
ghost use Rattle.std.specs.List.{AllByRecursion};
ghost use Rattle.bt_core.specs.declared.step.Step.{Step as MadeStep};
ghost use Rattle.bt_core.specs.Kinds.{IsFineDecl};
ghost use Rattle.bt_core.specs.Ports.{IsReplyOf};
ghost use Rattle.bt_core.specs.Steps.{AtEach, RepliesFollow};
ghost use Rattle.agg_core.specs.Answers.{answer};
ghost use Rattle.weave.specs.Order.{comes_before};
ghost use Rattle.step_entries.specs.Blank.{blank};
ghost use Rattle.begun_meaning.specs.Parts.{IsStampedAfter, NotBeforeLast};
ghost use Rattle.run_objects.specs.Objects.{Stand};
ghost use Rattle.run_objects.specs.Worlds.{World, answers};
ghost use Rattle.account_replay.specs.Replaying.{CanBeMade, IsReplaying, IsWrongNext, taken, with_reply, world_of};

use crate::clocks::Clocks;
use bt_core::items::Items;
use bt_core::map::MapDecl;
use bt_core::memory::Memory;
use bt_core::order::compare_objects;
use bt_core::step::{Reply, Step};
use run_objects::new_objects::new_objects;
use run_objects::objects::{Objects, take_at};
use std::alloc::Global;
use std::cmp::Ordering;
use std::snapshot::Snapshot;

/// Entries of which the first so many were made as steps, with the objects and the clocks after these.
#[derive(Drop)]
pub struct Replaying {
    pub cpus: u32,
    pub ticks: u32,
    pub maps: Snapshot<Items<MapDecl>>,
    pub objects: Objects,
    pub clocks: Clocks,
    pub entries: Items<Step>,
    pub at: usize,
}

/// Whether a step comes before another in the order of their stamps, and of their objects where these are one.
fn comes_first(one: &Step, other: &Step) -> bool
    ensures { result ≡ comes_before one.now other.now }
{
    match one.stamp.cmp(&other.stamp) {
        Ordering::Less => true,
        Ordering::Equal => match compare_objects(one.object, other.object) {
            Ordering::Less => true,
            _ => false,
        },
        Ordering::Greater => false,
    }
}

/// Whether the next entry comes before the one that was made last.
fn is_out_of_order(state: &Replaying) -> bool
    requires { state.now.at < length state.now.entries }
    ensures right { (d : MadeStep) → (result ≡ false) → NotBeforeLast (taken state.now) (slice_index_or state.now.entries state.now.at d) }
    ensures wrong { (d : MadeStep) → IsTrue result → NotBeforeLast (taken state.now) (slice_index_or state.now.entries state.now.at d) → ⊥ }
{
    let entries = state.entries.as_slice();
    state.at > 0 && comes_first(&entries[state.at], &entries[state.at - 1])
}

/// Puts a reply in the place of a step's.
fn set_reply(list: &mut Items<Step>, at: usize, reply: Reply)
    requires { at < length list.old }
    ensures { (d : MadeStep) → list.new ≡ slice_set list.old at (with_reply reply (slice_index_or list.old at d)) }
{
    let step = &mut list.as_mut_slice()[at];
    step.reply = reply;
}

/// Makes the next entry as a step, if its stamp and its order are right, and tells whether they are.
///
/// [`Memory`] is the one error.
fn take_next(alloc: Global, state: &mut Replaying) -> Result<bool, Memory>
    requires replaying { IsReplaying state.old }
    requires more { state.old.at < length state.old.entries }
    ensures world { world_of state.new ≡ world_of state.old }
    ensures told { map blank state.new.entries ≡ map blank state.old.entries }
    ensures on { IfOk result (λ right. IsTrue right → state.new.at ≡ state.old.at + 1) }
    ensures replaying { IfOk result (λ right. IsTrue right → IsReplaying state.new) }
    ensures same { IfOk result (λ right. (right ≡ false) → (state.new.entries ≡ state.old.entries) × (state.new.at ≡ state.old.at)) }
    ensures wrong { IfOk result (λ right. (d : MadeStep) → (right ≡ false) →
        IsWrongNext state.old.cpus (taken state.old) (slice_index_or state.old.entries state.old.at d)) }
{
    if is_out_of_order(state) {
        return Ok(false);
    }
    let entry = &state.entries.as_slice()[state.at];
    let actor = entry.actor;
    let told = entry.stamp;
    let clock = state.clocks.clock_of(state.cpus, actor);
    let mut reply = Reply::Done;
    let stamp = take_at(
        alloc,
        &mut state.objects,
        entry.object,
        &entry.op,
        clock,
        &mut reply,
    )?;
    if stamp != told {
        return Ok(false);
    }
    state.clocks.note(actor, stamp);
    set_reply(&mut state.entries, state.at, reply);
    state.at += 1;
    Ok(true)
}

/// Makes entries as steps, as far as their stamps and their order are right.
///
/// [`Memory`] is the one error.
fn take_all(alloc: Global, state: &mut Replaying) -> Result<(), Memory>
    requires { IsReplaying state.old }
    ensures world { world_of state.new ≡ world_of state.old }
    ensures told { map blank state.new.entries ≡ map blank state.old.entries }
    ensures within { OnOk result (state.new.at ≤ length state.new.entries) }
    ensures can { OnOk result (AllByRecursion (CanBeMade (world_of state.new)) (taken state.new)) }
    ensures replies { OnOk result (RepliesFollow (answers (world_of state.new)) (taken state.new)) }
    ensures stamps { OnOk result (AtEach (IsStampedAfter state.new.cpus) (taken state.new)) }
    ensures order { OnOk result (AtEach NotBeforeLast (taken state.new)) }
    ensures stand { OnOk result (state.new.at ≡ length state.new.entries → Stand (world_of state.new) (taken state.new) state.new.objects) }
    ensures wrong { OnOk result ((d : MadeStep) → state.new.at < length state.new.entries →
        IsWrongNext state.new.cpus (taken state.new) (slice_index_or state.new.entries state.new.at d)) }
{
    while state.at < state.entries.len() {
        if !take_next(alloc, state)? {
            return Ok(());
        }
    }
    Ok(())
}

/// The first so many of these steps.
fn first_steps(list: Items<Step>, count: usize) -> Items<Step>
    requires { count ≤ length list }
    ensures { result ≡ take count list }
{
    let mut list = list.into_vec();
    list.truncate(count);
    Items::of(list)
}

/// Entries that were made as steps, as far as their stamps and their order are right, and the objects at which they were made.
#[derive(Drop)]
pub struct Replayed {
    pub list: Items<Step>,
    pub objects: Objects,
}

/// Makes entries as steps once more at new objects, as far as their stamps and their order are right: gives those entries, with their
/// replies, and the objects. The objects are of a world with these maps, so many CPUs and so many ticks; where all entries were made,
/// they are those after these steps.
///
/// [`Memory`] is the one error.
pub fn replay(
    alloc: Global,
    maps: &Items<MapDecl>,
    cpus: u32,
    ticks: u32,
    entries: Items<Step>,
) -> Result<Replayed, Memory>
    requires fine { All IsFineDecl maps.now }
    requires some_cpus { 0 < cpus }
    requires few_cpus { cpus + 1 < 2 ^ 32 }
    requires can { AllByRecursion (CanBeMade (record { cpus = cpus; ticks = ticks; maps = maps.now })) entries }
    ensures within { IfOk result (λ made. length made.list ≤ length entries) }
    ensures can { IfOk result (λ made. AllByRecursion (CanBeMade (record { cpus = cpus; ticks = ticks; maps = maps.now })) made.list) }
    ensures kinds { IfOk result (λ made. AllByRecursion (λ (s : MadeStep). IsReplyOf maps.now s.object s.op s.reply) made.list) }
    ensures told { IfOk result (λ made. map blank made.list ≡ take (length made.list) (map blank entries)) }
    ensures replies { IfOk result (λ made. RepliesFollow (answer maps.now cpus) made.list) }
    ensures stamps { IfOk result (λ made. AtEach (IsStampedAfter cpus) made.list) }
    ensures order { IfOk result (λ made. AtEach NotBeforeLast made.list) }
    ensures stand { IfOk result (λ made. length made.list ≡ length entries →
        Stand (record { cpus = cpus; ticks = ticks; maps = maps.now }) made.list made.objects) }
    ensures wrong { IfOk result (λ made. (d : MadeStep) → length made.list < length entries →
        IsWrongNext cpus made.list (slice_index_or entries (length made.list) d)) }
{
    let objects = new_objects(alloc, maps, cpus, ticks)?;
    let clocks = Clocks::new(alloc, cpus)?;
    let mut state = Replaying {
        cpus,
        ticks,
        maps: Snapshot::of(maps),
        objects,
        clocks,
        entries,
        at: 0,
    };
    take_all(alloc, &mut state)?;
    Ok(Replayed {
        list: first_steps(state.entries, state.at),
        objects: state.objects,
    })
}
