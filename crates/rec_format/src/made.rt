// Entries that are made, and not read.
ghost use Rattle.std.specs.Prelude.{◌≡◌, ◌<◌, ◌^◌, length, map, IfOk};
ghost use Rattle.std.specs.List.{AllByRecursion};
ghost use Rattle.recordings.specs.declared.recording.Entry.TheVariants.{Event as EventEntry};
ghost use Rattle.recordings.specs.InFile.{event_seen};

use crate::writing::push_event;
use bt_core::memory::Memory;
use recordings::entries::{Entries, EntryPlace, EventRef};
use recordings::recording::Event;
use std::alloc::Global;

/// An event, as it is seen where it lies.
fn seen(event: &Event) -> EventRef<'_>
    ensures { event_seen result ≡ event.now }
{
    EventRef {
        time: event.time,
        pid: event.pid,
        tid: event.tid,
        uid: event.uid,
        gid: event.gid,
        comm: event.comm,
        format: event.format,
        payload: event.payload.as_slice(),
    }
}

/// These events as the entries of a CPU.
///
/// [`Memory`] is its one error. It comes as well where their bytes are more than 4,294,967,295.
pub fn entries_of(alloc: Global, events: &[Event]) -> Result<Entries, Memory>
    requires { AllByRecursion (λ e. length e.payload < 2 ^ 32) events.now }
    ensures { IfOk result (λ entries. entries ≡ map EventEntry events.now) }
{
    let mut bytes = Vec::new(alloc);
    let mut places = Vec::new(alloc);
    for event in events {
        let at = u32::try_from(bytes.len())?;
        push_event(&mut bytes, &seen(event))?;
        places.push(EntryPlace::Event {
            at,
            format: event.format,
        })?;
    }
    Entries::in_bytes(alloc, bytes, places)
}
