// Made recordings.
ghost use Rattle.std.specs.Prelude.{◌≡◌, ◌<◌, ◌≤◌, ◌+◌, ◌*◌, ◌^◌, IfOk};
ghost use Rattle.bt_core.specs.declared.limits.TheConstants.{EVENTS};
ghost use Rattle.recordings.specs.Recordings.{IsValidRecording};
ghost use Rattle.rec_gen.specs.Made.{made_track, IsMade};

use crate::draws::Draws;
use crate::event::event_of;
use crate::format::made_format;
use bt_core::items::Items;
use bt_core::memory::Memory;
use rec_format::made::entries_of;
use recordings::recording::{CpuTrack, Recording};
use std::alloc::Global;

/// How many CPUs a made recording has.
const CPUS: u32 = 4;

/// When a made recording ends, in nanoseconds: behind the last event of as many as there may be.
const END: u64 = 2_000_000_000;

/// The events of a CPU. All events are drawn, and it takes its own.
fn made_track(alloc: Global, seed: u32, count: u32, number: u32) -> Result<CpuTrack, Memory>
    requires { seed < 2 ^ 31 }
    ensures { IfOk result (λ track. track ≡ made_track seed count number) }
{
    let mut draws = Draws::new(seed);
    let mut events = Items::new(alloc);
    for place in 0..count {
        let drawn = draws.for_event();
        if place % CPUS == number {
            events.push(event_of(alloc, place, &drawn)?)?;
        }
    }
    let entries = entries_of(alloc, events.as_slice())?;
    Ok(CpuTrack { number, entries })
}

/// The recording of a seed, at most 2,147,483,647, and a count of events, at most 1,048,576: starts of system calls by eight threads of
/// four programs, one a microsecond, which four CPUs take in turn.
///
/// [`Memory`] is its one error.
pub fn generate(alloc: Global, seed: u32, count: u32) -> Result<Recording, Memory>
    requires seed { seed < 2 ^ 31 }
    requires count { count ≤ EVENTS }
    ensures made { IfOk result (λ r. IsMade seed count r) }
    ensures valid { IfOk result (λ r. IsValidRecording r) }
{
    let format = made_format(alloc)?;
    let mut formats = Items::new(alloc);
    formats.push(format)?;
    let mut cpus = Items::new(alloc);
    for number in 0..CPUS {
        cpus.push(made_track(alloc, seed, count, number)?)?;
    }
    Ok(Recording {
        version: 1,
        start: 0,
        end: END,
        formats,
        cpus,
    })
}
