// Agendas: the entries and ticks that a CPU takes, in their order.
ghost use Rattle.std.specs.Prelude.{◌≡◌, ◌<◌, ◌^◌, ◌∷◌, [], length, slice_get, MatchOption};
ghost use Rattle.std.specs.Option.{option_map};
ghost use Rattle.recordings.specs.InFile.{entry_seen};
ghost use Rattle.recordings.specs.Places.{entry_time};
ghost use Rattle.recordings.specs.Recordings.{IsValidRecording};
ghost use Rattle.actor_plan.specs.Agendas.{AreInTurn, item_at, agenda_of};
ghost use Rattle.actor_plan.specs.Steps.{is_tick_next};

use bt_ast::attached::{Attached, Tick};
use recordings::entries::{Entries, EntryRef};
use recordings::recording::Recording;
use std::marker::Model;

/// An item of a CPU's agenda: a tick by its place among the attached ticks, or an event or a mark of lost ones by its
/// place among the CPU's entries.
#[derive(Clone, Copy, PartialEq, Eq)]
pub enum AgendaItem {
    Tick(u32),
    Event(u32),
    Lost(u32),
}

/// The item of an entry.
fn item_at(place: u32, entry: &EntryRef<'_>) -> AgendaItem
    ensures { result ≡ item_at place (entry_seen entry.now) }
{
    match entry {
        EntryRef::Event(_) => AgendaItem::Event(place),
        EntryRef::Lost { .. } => AgendaItem::Lost(place),
    }
}

/// The time of an entry.
pub fn time_of(entry: &EntryRef<'_>) -> u64
    ensures { result ≡ entry_time (entry_seen entry.now) }
{
    match entry {
        EntryRef::Event(event) => event.time,
        EntryRef::Lost { time, .. } => *time,
    }
}

/// Whether the tick that has a place is the next item before an entry: there is such a tick, and no entry, or none before the
/// tick's time.
fn is_tick_next(ticks: &[Tick], place: usize, entry: &Option<EntryRef<'_>>) -> bool
    ensures { result ≡ is_tick_next (slice_get ticks.now place) (option_map entry_seen entry.now) }
{
    match ticks.get(place) {
        None => false,
        Some(tick) => match entry {
            None => true,
            Some(entry) => time_of(entry) >= tick.time,
        },
    }
}

/// The items of a CPU's agenda that are still to come: its entries in the order of the file, and all ticks. A tick stands after
/// the entries with a smaller time and before those with its time or more, and ticks stand in their order. Only the places of
/// the next entry and of the next tick are kept, so that it takes no memory for an item.
///
/// Contracts see the list of these items.
#[derive(Drop)]
pub struct Agenda<'a> {
    entries: &'a Entries,
    ticks: &'a [Tick],
    next_entry: usize,
    next_tick: usize,
}

impl<'a> Model for Agenda<'a> {
    ghost use Rattle.std.specs.Prelude.{◌<◌, ◌≤◌, ◌^◌, List, drop, length};
    ghost use Rattle.actor_plan.specs.declared.agenda.AgendaItem.{AgendaItem as Item};
    ghost use Rattle.actor_plan.specs.Steps.{taken};

    ghost Value = { List Item };

    ghost view = { λ s. taken s.next_entry (drop s.next_entry s.entries.now) s.next_tick (drop s.next_tick s.ticks.now) };

    ghost invariant = { λ s. (length s.entries.now ≤ 2 ^ 32) × (length s.ticks.now < 2 ^ 32) };
}

impl<'a> Agenda<'a> {
    /// The whole agenda of a CPU, which its place among the CPUs names. It takes no memory.
    pub fn new(recording: &'a Recording, attached: &'a Attached, cpu: u32) -> Agenda<'a>
        requires valid { IsValidRecording recording.now }
        requires few_ticks { length attached.now.ticks < 2 ^ 32 }
        requires in_turn { AreInTurn attached.now.ticks }
        requires known { cpu < length recording.now.cpus }
        ensures { result ≡ agenda_of recording.now attached.now cpu }
    {
        let track = &recording.cpus.as_slice()[cpu as usize];
        Agenda {
            entries: &track.entries,
            ticks: attached.ticks.as_slice(),
            next_entry: 0,
            next_tick: 0,
        }
    }

    /// Takes the next item, or tells that none is left. It takes no memory.
    pub fn next(&mut self) -> Option<AgendaItem>
        ensures { MatchOption result ((self.old ≡ []) × (self.new ≡ [])) (λ item. self.old ≡ item ∷ self.new) }
    {
        let entry = self.entries.get(self.next_entry);
        if is_tick_next(self.ticks, self.next_tick, &entry) {
            let item = AgendaItem::Tick(self.next_tick as u32);
            self.next_tick += 1;
            return Some(item);
        }
        let Some(entry) = entry else {
            return None;
        };
        let item = item_at(self.next_entry as u32, &entry);
        self.next_entry += 1;
        Some(item)
    }
}
