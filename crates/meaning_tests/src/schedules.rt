// The order of the items of two CPUs, of a recording that is read.
ghost use Rattle.std.specs.Prelude.{IsTrue};
ghost use Rattle.recordings.specs.Recordings.{IsValidRecording};
ghost use Rattle.actor_plan.specs.Agendas.{AreInTurn};

use bt_ast::attached::{Attached, Tick};
use bt_core::items::Items;
use bt_core::memory::Memory;
use bt_meaning::schedule::{Due, Schedule, Scheduled};
use rec_format::reading::read_recording;
use recordings::recording::Recording;
use std::alloc::Global;
use std::test::Fail;

/// What stands behind the magic of a recording of two CPUs, from time 0 to 5 seconds, with one format, up to its first CPU.
const HEAD: &[u8] = b"\x02\0\0\0\x01\0\0\0\0\0\0\0\0\0\0\0\0\xf2\x05*\x01\0\0\0\
\x01\0t\x16\0\0\0name: e\n\
ID: 7\n\
format:\n";

/// What stands behind the time of an entry: pid 1, tid 2, uid 3, gid 4, the name `p`, and a payload of two bytes.
const REST: &[u8] =
    b"\x01\0\0\0\x02\0\0\0\x03\0\0\0\x04\0\0\0p\0\0\0\0\0\0\0\0\0\0\0\0\0\0\0\x02\0\0\0\x07\0";

/// Entries of a CPU: events at these times, or marks with a time and a count.
#[derive(Clone, Copy)]
enum Track {
    Events(&'static [u64]),
    Marks(&'static [(u64, u64)]),
}

/// Adds a CPU of this number with these entries, in a recording of version 1 where it has events, and of version 2 where it has marks.
fn push_cpu(bytes: &mut Vec<u8>, number: u32, track: Track) -> Result<(), Memory> {
    bytes.extend_from_slice(&number.to_le_bytes())?;
    match track {
        Track::Events(times) => {
            bytes.extend_from_slice(&(times.len().min(99) as u32).to_le_bytes())?;
            for time in times {
                bytes.extend_from_slice(&time.to_le_bytes())?;
                bytes.extend_from_slice(REST)?;
            }
        }
        Track::Marks(marks) => {
            bytes.extend_from_slice(&(marks.len().min(99) as u32).to_le_bytes())?;
            for (time, count) in marks {
                bytes.push(1)?;
                bytes.extend_from_slice(&time.to_le_bytes())?;
                bytes.extend_from_slice(&count.to_le_bytes())?;
            }
        }
    }
    Ok(())
}

/// Whether ticks stand in their order.
fn stand_in_turn(ticks: &[Tick]) -> bool
    ensures { IsTrue result → AreInTurn ticks.now }
{
    for place in 1..ticks.len() {
        let one = ticks[place - 1];
        let next = ticks[place];
        if next.time < one.time || (next.time == one.time && next.body < one.body) {
            return false;
        }
    }
    true
}

/// The items of a schedule, taken one by one.
fn items_of(alloc: Global, mut schedule: Schedule<'_>) -> Result<Items<Scheduled>, Memory> {
    let mut items = Items::new(alloc);
    while let Some(item) = schedule.next() {
        items.push(item)?;
    }
    Ok(items)
}

/// The items of a recording with these ticks in their order.
fn schedule_with(
    alloc: Global,
    recording: &Recording,
    ticks: &[Tick],
) -> Result<Items<Scheduled>, Fail>
    requires { IsValidRecording recording.now }
{
    if ticks.len() > 9 || !stand_in_turn(ticks) {
        return Err(Fail::from("too many ticks, or out of order"));
    }
    let attached = Attached {
        bodies: Items::new(alloc),
        by_format: Items::new(alloc),
        ticks: Items::from_slice(alloc, ticks)?,
        begin: Items::new(alloc),
        end: Items::new(alloc),
    };
    let schedule = Schedule::new(alloc, recording, &attached)?;
    Ok(items_of(alloc, schedule)?)
}

/// A magic, the entries of two CPUs, ticks, and the times and items.
type Row = (
    &'static [u8],
    [Track; 2],
    &'static [Tick],
    &'static [(u64, Due)],
);

/// At one time the ticks come before the events, each for all CPUs; and marks go by their times.
const ROWS: [Row; 2] = [
    (
        b"BTRACE01",
        [
            Track::Events(&[500_000_000, 1_500_000_000]),
            Track::Events(&[500_000_000, 1_000_000_000]),
        ],
        &[
            Tick {
                time: 1_000_000_000,
                body: 0,
            },
            Tick {
                time: 1_000_000_000,
                body: 1,
            },
            Tick {
                time: 2_000_000_000,
                body: 0,
            },
        ],
        &[
            (
                500_000_000,
                Due::Entry {
                    cpu: 0,
                    entry: 0,
                    lost: false,
                },
            ),
            (
                500_000_000,
                Due::Entry {
                    cpu: 1,
                    entry: 0,
                    lost: false,
                },
            ),
            (1_000_000_000, Due::Tick { tick: 0, cpu: 0 }),
            (1_000_000_000, Due::Tick { tick: 0, cpu: 1 }),
            (1_000_000_000, Due::Tick { tick: 1, cpu: 0 }),
            (1_000_000_000, Due::Tick { tick: 1, cpu: 1 }),
            (
                1_000_000_000,
                Due::Entry {
                    cpu: 1,
                    entry: 1,
                    lost: false,
                },
            ),
            (
                1_500_000_000,
                Due::Entry {
                    cpu: 0,
                    entry: 1,
                    lost: false,
                },
            ),
            (2_000_000_000, Due::Tick { tick: 2, cpu: 0 }),
            (2_000_000_000, Due::Tick { tick: 2, cpu: 1 }),
        ],
    ),
    (
        b"BTRACE02",
        [Track::Marks(&[(9, 1)]), Track::Marks(&[(4, 2)])],
        &[],
        &[
            (
                4,
                Due::Entry {
                    cpu: 1,
                    entry: 0,
                    lost: true,
                },
            ),
            (
                9,
                Due::Entry {
                    cpu: 0,
                    entry: 0,
                    lost: true,
                },
            ),
        ],
    ),
];

#[test]
fn items_of_two_cpus(rt: HostRuntime) -> Result<(), Fail> {
    let alloc = rt.alloc();
    for (row, (magic, tracks, ticks, items)) in ROWS.iter().enumerate() {
        let mut bytes = Vec::from_slice(alloc, magic)?;
        bytes.extend_from_slice(HEAD)?;
        push_cpu(&mut bytes, 3, tracks[0])?;
        push_cpu(&mut bytes, 7, tracks[1])?;
        let recording = read_recording(alloc, bytes)?;
        let schedule = schedule_with(alloc, &recording, ticks)?;
        assert!(rt; schedule.len() == items.len());
        for (place, (time, due)) in items.iter().enumerate() {
            let want = Scheduled {
                time: *time,
                due: *due,
            };
            assert!(rt;
                schedule.get(place) == Some(&want),
                "row {row}, item {place}"
            );
        }
    }
    Ok(())
}
