// The items of an agenda.
ghost use Rattle.std.specs.Prelude.{◌≡◌, ◌≤◌, ◌*◌, Some, IfOk, slice_get};
ghost use Rattle.bt_core.specs.declared.limits.TheConstants.{BODIES as MOST_BODIES};
ghost use Rattle.bt_core.specs.Interaction.{Performed};
ghost use Rattle.recordings.specs.InFile.{event_seen, entry_seen};
ghost use Rattle.recordings.specs.Places.{HasFormat};
ghost use Rattle.actor_plan.specs.Programs.{event_work, mark_work, entry_work, tick_work, item_work};
ghost use Rattle.actor_plan.specs.Steps.{IsRecorded};
ghost use Rattle.actor_plan.specs.Ready.{IsReady};

use crate::agenda::AgendaItem;
use crate::bodies::Bodies;
use crate::clock::crosses_last;
use crate::context::{context_of_event, context_of_tick};
use crate::in_turn::run_in_turn;
use crate::limits::RUN_INSTRUCTIONS;
use bt_ast::attached::{Attached, Tick};
use bt_core::item::Item;
use bt_core::memory::Memory;
use bt_core::port::Port;
use bt_core::step::{ObjectId, Op};
use recordings::entries::{EntryRef, EventRef};
use recordings::recording::{CpuTrack, Recording};
use std::alloc::Global;

/// Runs the bodies that are attached to an event, and gives the sum of their instructions.
fn run_event<B: Bodies, P: Port>(
    alloc: Global,
    bodies: &mut B,
    recording: &Recording,
    attached: &Attached,
    track: &CpuTrack,
    event: &EventRef<'_>,
    port: &mut P,
) -> Result<u64, Memory>
    requires ready { IsReady (B.plan bodies.old) recording.now attached.now (P.fixed port.old).setting }
    requires recorded { HasFormat recording.now.formats (event_seen event.now) }
    ensures performed { Performed (event_work (B.plan bodies.old) recording.now attached.now track.now (event_seen event.now))
        (P.steps port.old) (P.steps port.new) result }
    ensures few { IfOk result (λ count. count ≤ MOST_BODIES * RUN_INSTRUCTIONS) }
    ensures port_kept { P.fixed port.new ≡ P.fixed port.old }
    ensures plan_kept { B.plan bodies.new ≡ B.plan bodies.old }
{
    let context = context_of_event(recording, track, event);
    match attached.by_format.get(event.format as usize) {
        None => Ok(0),
        Some(which) => run_in_turn(
            alloc,
            bodies,
            which.as_slice(),
            &context,
            event.payload,
            port,
        ),
    }
}

/// Crosses a tick, and runs its body where this CPU is the last to cross it; gives the body's instructions.
fn run_tick<B: Bodies, P: Port>(
    alloc: Global,
    bodies: &mut B,
    recording: &Recording,
    attached: &Attached,
    track: &CpuTrack,
    place: u32,
    tick: &Tick,
    port: &mut P,
) -> Result<u64, Memory>
    requires ready { IsReady (B.plan bodies.old) recording.now attached.now (P.fixed port.old).setting }
    requires there { slice_get attached.now.ticks place ≡ Some tick.now }
    ensures performed { Performed (tick_work (B.plan bodies.old) recording.now attached.now track.now place tick.now)
        (P.steps port.old) (P.steps port.new) result }
    ensures few { IfOk result (λ count. count ≤ MOST_BODIES * RUN_INSTRUCTIONS) }
    ensures port_kept { P.fixed port.new ≡ P.fixed port.old }
    ensures plan_kept { B.plan bodies.new ≡ B.plan bodies.old }
{
    if !crosses_last(alloc, place, port)? {
        return Ok(0);
    }
    let context = context_of_tick(recording, track, tick);
    bodies.run(alloc, tick.body, &context, &[], port)
}

/// Tells of lost events.
fn run_mark<P: Port>(alloc: Global, number: u32, count: u64, port: &mut P) -> Result<u64, Memory>
    ensures performed { Performed (mark_work number count) (P.steps port.old) (P.steps port.new) result }
    ensures none { IfOk result (λ instructions. instructions ≡ 0) }
    ensures port_kept { P.fixed port.new ≡ P.fixed port.old }
{
    let mut op = Op::Emit(Item::Lost { cpu: number, count });
    port.step(alloc, ObjectId::Out, &mut op)?;
    Ok(0)
}

/// Does what an entry of a CPU asks for, and gives the sum of the instructions.
fn run_entry<B: Bodies, P: Port>(
    alloc: Global,
    bodies: &mut B,
    recording: &Recording,
    attached: &Attached,
    track: &CpuTrack,
    entry: &EntryRef<'_>,
    port: &mut P,
) -> Result<u64, Memory>
    requires ready { IsReady (B.plan bodies.old) recording.now attached.now (P.fixed port.old).setting }
    requires recorded { IsRecorded recording.now.formats (entry_seen entry.now) }
    ensures performed { Performed (entry_work (B.plan bodies.old) recording.now attached.now track.now (entry_seen entry.now))
        (P.steps port.old) (P.steps port.new) result }
    ensures few { IfOk result (λ count. count ≤ MOST_BODIES * RUN_INSTRUCTIONS) }
    ensures port_kept { P.fixed port.new ≡ P.fixed port.old }
    ensures plan_kept { B.plan bodies.new ≡ B.plan bodies.old }
{
    match entry {
        EntryRef::Event(event) => run_event(alloc, bodies, recording, attached, track, event, port),
        EntryRef::Lost { count, .. } => run_mark(alloc, track.number, *count, port),
    }
}

/// Does what an item of a CPU's agenda asks for, and gives the sum of the instructions.
pub(crate) fn run_item<B: Bodies, P: Port>(
    alloc: Global,
    bodies: &mut B,
    recording: &Recording,
    attached: &Attached,
    track: &CpuTrack,
    item: AgendaItem,
    port: &mut P,
) -> Result<u64, Memory>
    requires ready { IsReady (B.plan bodies.old) recording.now attached.now (P.fixed port.old).setting }
    requires on_cpu { slice_get recording.now.cpus (B.plan bodies.old).actor ≡ Some track.now }
    ensures performed { Performed (item_work (B.plan bodies.old) recording.now attached.now track.now item)
        (P.steps port.old) (P.steps port.new) result }
    ensures few { IfOk result (λ count. count ≤ MOST_BODIES * RUN_INSTRUCTIONS) }
    ensures port_kept { P.fixed port.new ≡ P.fixed port.old }
    ensures plan_kept { B.plan bodies.new ≡ B.plan bodies.old }
{
    match item {
        AgendaItem::Tick(place) => match attached.ticks.get(place as usize) {
            None => Ok(0),
            Some(tick) => run_tick(alloc, bodies, recording, attached, track, place, tick, port),
        },
        AgendaItem::Event(place) | AgendaItem::Lost(place) => {
            match track.entries.get(place as usize) {
                None => Ok(0),
                Some(entry) => run_entry(alloc, bodies, recording, attached, track, &entry, port),
            }
        }
    }
}
