// The order in which a run on one thread takes the items of all agendas.
ghost use Rattle.std.specs.Prelude.{◌≡◌, ◌++◌, [], ◌∷◌, ◌<◌, ◌≤◌, ◌^◌, MatchOption, IfOk, OnOk, length, map};
ghost use Rattle.std.specs.BinaryHeap.{heap_items, heap_len, IsHeap};
ghost use Rattle.std.specs.List.{All, cons_option};
ghost use Rattle.recordings.specs.declared.recording.CpuTrack.{CpuTrack};
ghost use Rattle.recordings.specs.InFile.{entry_seen};
ghost use Rattle.recordings.specs.Recordings.{IsValidRecording};
ghost use Rattle.actor_plan.specs.Agendas.{AreInTurn};
ghost use Rattle.bt_meaning.specs.Schedules.{entry_due, serial_order};
ghost use Rattle.bt_meaning.specs.Upcoming.{entry_at, first_items, head_item, item_behind, later_order, tick_at, HasReplaced};

use actor_plan::agenda::time_of;
use bt_ast::attached::{Attached, Tick};
use bt_core::memory::Memory;
use recordings::entries::{Entries, EntryRef};
use recordings::recording::{CpuTrack, Recording};
use std::alloc::Global;
use std::cmp::Reverse;
use std::collections::BinaryHeap;
use std::marker::Model;

/// An item of a CPU's agenda. Of items with one time ticks come before entries; ticks go by their order and then by CPU, and
/// entries by CPU and then by their place on it. An entry is an event, or a mark of lost ones.
#[derive(Clone, Copy, PartialEq, Eq, PartialOrd, Ord)]
pub enum Due {
    Tick { tick: u32, cpu: u32 },
    Entry { cpu: u32, entry: u32, lost: bool },
}

/// An item with its time in nanoseconds, by which it is taken.
#[derive(Clone, Copy, PartialEq, Eq, PartialOrd, Ord)]
pub struct Scheduled {
    pub time: u64,
    pub due: Due,
}

/// The tick that has a place, for a CPU.
fn tick_at(ticks: &[Tick], cpu: u32, place: usize) -> Option<Scheduled>
    requires few { length ticks.now < 2 ^ 32 }
    ensures { result ≡ tick_at cpu place ticks.now }
{
    match ticks.get(place) {
        Some(tick) => Some(Scheduled {
            time: tick.time,
            due: Due::Tick {
                tick: place as u32,
                cpu,
            },
        }),
        None => None,
    }
}

/// The entry of a CPU that has a place.
fn entry_due(cpu: u32, place: u32, entry: &EntryRef<'_>) -> Scheduled
    ensures { result ≡ entry_due cpu place (entry_seen entry.now) }
{
    let due = Due::Entry {
        cpu,
        entry: place,
        lost: matches!(entry, EntryRef::Lost { .. }),
    };
    Scheduled {
        time: time_of(entry),
        due,
    }
}

/// The entry of a CPU that has a place, if it has so many.
fn entry_at(entries: &Entries, cpu: u32, place: usize) -> Option<Scheduled>
    requires few { length entries.now ≤ 2 ^ 32 }
    ensures { result ≡ entry_at cpu place entries.now }
{
    match entries.get(place) {
        Some(entry) => Some(entry_due(cpu, place as u32, &entry)),
        None => None,
    }
}

/// The tick or the entry behind an item, of the same CPU.
fn item_behind(ticks: &[Tick], tracks: &[CpuTrack], due: Due) -> Option<Scheduled>
    requires few_ticks { length ticks.now < 2 ^ 32 }
    requires few_entries { All (λ (track : CpuTrack). length track.entries ≤ 2 ^ 32) tracks.now }
    ensures { result ≡ item_behind ticks.now tracks.now due }
{
    match due {
        Due::Tick { tick, cpu } => tick_at(ticks, cpu, tick as usize + 1),
        Due::Entry { cpu, entry, .. } => match tracks.get(cpu as usize) {
            Some(track) => entry_at(&track.entries, cpu, entry as usize + 1),
            None => None,
        },
    }
}

/// Adds an item, if there is one.
fn push_item(items: &mut Vec<Reverse<Scheduled>>, item: Option<Scheduled>) -> Result<(), Memory>
    ensures { OnOk result (map head_item items.new.items ≡ map head_item items.old.items ++ cons_option item []) }
{
    if let Some(item) = item {
        items.push(Reverse(item))?;
    }
    Ok(())
}

/// The first tick and the first entry of each CPU.
fn first_items(
    alloc: Global,
    ticks: &[Tick],
    tracks: &[CpuTrack],
) -> Result<Vec<Reverse<Scheduled>>, Memory>
    requires few_ticks { length ticks.now < 2 ^ 32 }
    requires few_cpus { length tracks.now < 2 ^ 32 }
    requires few_entries { All (λ (track : CpuTrack). length track.entries ≤ 2 ^ 32) tracks.now }
    ensures { IfOk result (λ items. map head_item items.items ≡ first_items ticks.now 0 tracks.now) }
{
    let mut items = Vec::new(alloc);
    for (cpu, track) in tracks.iter().enumerate() {
        push_item(&mut items, tick_at(ticks, cpu as u32, 0))?;
        push_item(&mut items, entry_at(&track.entries, cpu as u32, 0))?;
    }
    Ok(items)
}

/// Puts an item in the place of the first one. There is one at least.
fn replace_first(heads: &mut BinaryHeap<Reverse<Scheduled>>, item: Scheduled)
    requires heap { IsHeap later_order (heap_items heads.old) }
    requires some { 0 < heap_len heads.old }
    ensures { HasReplaced (heap_items heads.old) (heap_items heads.new) item }
{
    if let Some(mut first) = heads.peek_mut() {
        *first = Reverse(item);
    }
}

/// The items of all agendas that are still to come, in the order in which a run on one thread takes them: by time, at one time
/// ticks before entries, ticks by their order and then by CPU, and entries by CPU and then by their place in the file. Only the
/// next tick and the next entry of each CPU are kept, so that it takes no memory for an item.
///
/// Contracts see the list of these items.
#[derive(Drop)]
pub struct Schedule<'a> {
    ticks: &'a [Tick],
    tracks: &'a [CpuTrack],
    heads: BinaryHeap<Reverse<Scheduled>>,
}

impl<'a> Model for Schedule<'a> {
    ghost use Rattle.std.specs.Prelude.{List, map};
    ghost use Rattle.std.specs.BinaryHeap.{heap_items};
    ghost use Rattle.bt_meaning.specs.declared.schedule.Scheduled.{Scheduled as Item};
    ghost use Rattle.bt_meaning.specs.Upcoming.{head_item, upcoming, IsUnderWay};

    ghost Value = { List Item };

    ghost view = { λ s. upcoming s.ticks.now s.tracks.now (map head_item (heap_items s.heads)) };

    ghost invariant = { λ s. IsUnderWay s.ticks.now s.tracks.now (heap_items s.heads) };
}

impl<'a> Schedule<'a> {
    /// All items of the agendas of a recording's CPUs. [`Memory`] is its one error.
    pub fn new(
        alloc: Global,
        recording: &'a Recording,
        attached: &'a Attached,
    ) -> Result<Schedule<'a>, Memory>
        requires valid { IsValidRecording recording.now }
        requires few_ticks { length attached.now.ticks < 2 ^ 32 }
        requires in_turn { AreInTurn attached.now.ticks }
        ensures { IfOk result (λ schedule. schedule ≡ serial_order recording.now attached.now) }
    {
        let ticks = attached.ticks.as_slice();
        let tracks = recording.cpus.as_slice();
        let heads = first_items(alloc, ticks, tracks)?;
        Ok(Schedule {
            ticks,
            tracks,
            heads: BinaryHeap::from(heads),
        })
    }

    /// Takes the next item, or tells that none is left. It takes time by the logarithm of the number of CPUs, and no memory.
    pub fn next(&mut self) -> Option<Scheduled>
        ensures { MatchOption result ((self.old ≡ []) × (self.new ≡ [])) (λ item. self.old ≡ item ∷ self.new) }
    {
        let Reverse(item) = *self.heads.peek()?;
        if let Some(behind) = item_behind(self.ticks, self.tracks, item.due) {
            replace_first(&mut self.heads, behind);
            return Some(item);
        }
        let Some(Reverse(last)) = self.heads.pop() else {
            return None;
        };
        Some(last)
    }
}
