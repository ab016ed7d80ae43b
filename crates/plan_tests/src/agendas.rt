// Agendas: where ticks stand between the events of recordings and the marks of lost ones, and what the bodies there see.
ghost use Rattle.std.specs.Prelude.{IsTrue};
ghost use Rattle.recordings.specs.Recordings.{IsValidRecording};
ghost use Rattle.actor_plan.specs.Agendas.{AreInTurn};

use actor_plan::agenda::{Agenda, AgendaItem};
use bt_ast::attached::{Attached, Tick};
use bt_core::items::Items;
use bt_core::memory::Memory;
use rec_format::reading::read_recording;
use recordings::recording::Recording;
use std::alloc::Global;
use std::test::Fail;

/// What stands behind the magic of a recording of one CPU with the number 3, from time 0 to 5 seconds, with one format, up to
/// the number of its entries.
const HEAD: &[u8] = b"\x01\0\0\0\x01\0\0\0\0\0\0\0\0\0\0\0\0\xf2\x05*\x01\0\0\0\
\x01\0t\x16\0\0\0name: e\n\
ID: 7\n\
format:\n\
\x03\0\0\0";

/// What stands behind the time of an entry: pid 1, tid 2, uid 3, gid 4, the name `p`, and a payload of two bytes.
const REST: &[u8] =
    b"\x01\0\0\0\x02\0\0\0\x03\0\0\0\x04\0\0\0p\0\0\0\0\0\0\0\0\0\0\0\0\0\0\0\x02\0\0\0\x07\0";

/// An event at a time, or a mark of 6 lost ones.
#[derive(Clone, Copy)]
enum At {
    Event(u64),
    Lost(u64),
}

/// The bytes of a recording with these entries, which is of version 2 where it has marks.
fn bytes_with(alloc: Global, entries: &[At]) -> Result<Vec<u8>, Memory> {
    let marks = entries.iter().any(|entry| matches!(entry, At::Lost(_)));
    let mut bytes = Vec::from_slice(alloc, if marks { b"BTRACE02" } else { b"BTRACE01" })?;
    bytes.extend_from_slice(HEAD)?;
    bytes.extend_from_slice(&(entries.len().min(99) as u32).to_le_bytes())?;
    for entry in entries {
        match entry {
            At::Event(time) => {
                bytes.extend_from_slice(&[0][..usize::from(marks)])?;
                bytes.extend_from_slice(&time.to_le_bytes())?;
                bytes.extend_from_slice(REST)?;
            }
            At::Lost(time) => {
                bytes.push(1)?;
                bytes.extend_from_slice(&time.to_le_bytes())?;
                bytes.extend_from_slice(&6_u64.to_le_bytes())?;
            }
        }
    }
    Ok(bytes)
}

/// Whether ticks stand in their order.
fn stand_in_turn(ticks: &[Tick]) -> bool
    ensures { IsTrue result → AreInTurn ticks.now }
{
    for place in 1..ticks.len() {
        let one = ticks[place - 1];
        let next = ticks[place];
        if next.time < one.time || (next.time == one.time && next.body < one.body) {
            return false;
        }
    }
    true
}

/// More items than a row has.
const MOST_ITEMS: usize = 99;

/// The agenda of the one CPU of a recording, of which no more items than that are asked for.
fn agenda_with(
    alloc: Global,
    recording: &Recording,
    ticks: &[Tick],
) -> Result<Items<AgendaItem>, Fail>
    requires { IsValidRecording recording.now }
{
    if ticks.len() > 9 || !stand_in_turn(ticks) {
        return Err(Fail::from("ticks out of order"));
    }
    let attached = Attached {
        bodies: Items::new(alloc),
        by_format: Items::new(alloc),
        ticks: Items::from_slice(alloc, ticks)?,
        begin: Items::new(alloc),
        end: Items::new(alloc),
    };
    let mut agenda = Agenda::new(recording, &attached, 0);
    let mut items = Items::new(alloc);
    for _ in 0..MOST_ITEMS {
        let Some(item) = agenda.next() else {
            break;
        };
        items.push(item)?;
    }
    Ok(items)
}

/// Entries, ticks, and the items in which they stand.
const AGENDAS: [(&[At], &[Tick], &[AgendaItem]); 9] = [
    // Two events, and ticks at one and at two seconds.
    (
        &[At::Event(500_000_000), At::Event(1_500_000_000)],
        &[
            Tick {
                time: 1_000_000_000,
                body: 0,
            },
            Tick {
                time: 2_000_000_000,
                body: 0,
            },
        ],
        &[
            AgendaItem::Event(0),
            AgendaItem::Tick(0),
            AgendaItem::Event(1),
            AgendaItem::Tick(1),
        ],
    ),
    // Five events and no ticks.
    (
        &[
            At::Event(1),
            At::Event(2),
            At::Event(3),
            At::Event(4),
            At::Event(5),
        ],
        &[],
        &[
            AgendaItem::Event(0),
            AgendaItem::Event(1),
            AgendaItem::Event(2),
            AgendaItem::Event(3),
            AgendaItem::Event(4),
        ],
    ),
    // Ticks up to the end, behind the last event.
    (
        &[At::Event(500_000_000), At::Event(1_500_000_000)],
        &[
            Tick {
                time: 1_000_000_000,
                body: 1,
            },
            Tick {
                time: 2_000_000_000,
                body: 1,
            },
            Tick {
                time: 3_000_000_000,
                body: 1,
            },
            Tick {
                time: 4_000_000_000,
                body: 1,
            },
            Tick {
                time: 5_000_000_000,
                body: 1,
            },
        ],
        &[
            AgendaItem::Event(0),
            AgendaItem::Tick(0),
            AgendaItem::Event(1),
            AgendaItem::Tick(1),
            AgendaItem::Tick(2),
            AgendaItem::Tick(3),
            AgendaItem::Tick(4),
        ],
    ),
    // Ticks and events at one time.
    (
        &[
            At::Event(999_999_999),
            At::Event(1_000_000_000),
            At::Event(1_000_000_000),
            At::Event(1_000_000_001),
        ],
        &[
            Tick {
                time: 1_000_000_000,
                body: 0,
            },
            Tick {
                time: 1_000_000_000,
                body: 2,
            },
        ],
        &[
            AgendaItem::Event(0),
            AgendaItem::Tick(0),
            AgendaItem::Tick(1),
            AgendaItem::Event(1),
            AgendaItem::Event(2),
            AgendaItem::Event(3),
        ],
    ),
    // Ticks alone, and nothing.
    (&[], &[Tick { time: 7, body: 0 }], &[AgendaItem::Tick(0)]),
    (&[], &[], &[]),
    // A mark at a tick's time, between two events.
    (
        &[At::Event(1), At::Lost(5), At::Event(9)],
        &[Tick { time: 5, body: 0 }],
        &[
            AgendaItem::Event(0),
            AgendaItem::Tick(0),
            AgendaItem::Lost(1),
            AgendaItem::Event(2),
        ],
    ),
    // A mark before a tick, and an event at the tick's time.
    (
        &[At::Lost(4), At::Event(5)],
        &[Tick { time: 5, body: 0 }],
        &[
            AgendaItem::Lost(0),
            AgendaItem::Tick(0),
            AgendaItem::Event(1),
        ],
    ),
    // Marks and an event at one time.
    (
        &[At::Lost(3), At::Event(3), At::Lost(3)],
        &[],
        &[
            AgendaItem::Lost(0),
            AgendaItem::Event(1),
            AgendaItem::Lost(2),
        ],
    ),
];

#[test]
fn ticks_stand_between_the_entries(rt: HostRuntime) -> Result<(), Fail> {
    let alloc = rt.alloc();
    for (place, (entries, ticks, want)) in AGENDAS.iter().enumerate() {
        let bytes = bytes_with(alloc, entries)?;
        let recording = read_recording(alloc, bytes)?;
        let items = agenda_with(alloc, &recording, ticks)?;
        assert!(rt; items.as_slice() == *want, "row {place}");
    }
    Ok(())
}
