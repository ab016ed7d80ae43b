// That CPUs run side by side, each at an object of its own.
use crate::files::{AT_0, AT_1, HEAD, ONE_EACH, REST, VALUE, answer_to};
use bt_core::map::MapId;
use bt_core::step::ObjectId;
use std::sync::atomic::AtomicU64;
use std::sync::atomic::Ordering::SeqCst;
use std::sync::{Mutex, Wait};
use std::test::Fail;
use std::thread;
use turn_lock::gate::{Gate, Open};

/// How often an actor looks whether the other one holds a turn too.
const LOOKS: u64 = 100_000_000;

/// What a gate notes of an actor: how many of its turns were held, and the object of the first one.
#[derive(Drop)]
struct Noted {
    turns: AtomicU64,
    object: Mutex<Option<ObjectId>>,
}

/// Holds the first turn of each of the first two actors until the other one holds its first turn too, for so many looks at most.
#[derive(Drop)]
struct UntilBoth {
    first: Noted,
    second: Noted,
    missed: AtomicU64,
}

/// Notes a turn, and holds it where it is the first.
fn hold<R: Wait>(rt: &R, mine: &Noted, other: &Noted, missed: &AtomicU64, object: ObjectId) {
    if mine.turns.fetch_add(1, SeqCst) > 0 {
        return;
    }
    *mine.object.lock(rt) = Some(object);
    for _ in 0..LOOKS {
        if other.turns.load(SeqCst) > 0 {
            return;
        }
        thread::yield_now();
    }
    missed.fetch_add(1, SeqCst);
}

impl Gate for UntilBoth {
    fn held<R: Wait>(&self, rt: &R, actor: u32, object: ObjectId) {
        if actor == 0 {
            hold(rt, &self.first, &self.second, &self.missed, object);
        } else if actor == 1 {
            hold(rt, &self.second, &self.first, &self.missed, object);
        }
    }
}

/// The first part of the first map, and that of the second.
const FIRST_PARTS: [ObjectId; 2] = [
    ObjectId::Shared {
        map: MapId(0),
        part: 0,
    },
    ObjectId::Shared {
        map: MapId(1),
        part: 0,
    },
];

/// The words of a run on threads.
const RUN: [&str; 3] = ["run", "s.bt", "r.bin"];

impl UntilBoth {
    /// A gate that has noted nothing.
    fn new() -> UntilBoth {
        UntilBoth {
            first: Noted {
                turns: AtomicU64::new(0),
                object: Mutex::new(None),
            },
            second: Noted {
                turns: AtomicU64::new(0),
                object: Mutex::new(None),
            },
            missed: AtomicU64::new(0),
        }
    }

    /// Whether the first turns were at these objects, and each was held until the other one was.
    fn has_noted<R: Wait>(&self, rt: &R, first: ObjectId, second: ObjectId) -> bool {
        *self.first.object.lock(rt) == Some(first)
            && *self.second.object.lock(rt) == Some(second)
            && self.missed.load(SeqCst) == 0
    }
}

/// Scripts, what they print, and the objects of the first turns.
const SIDE_BY_SIDE: [(&[u8], &[u8], [ObjectId; 2]); 2] = [
    (
        b"tracepoint:t:e { @[comm] = count(); }",
        b"@[bash]: 2\n\n",
        [ObjectId::Cpu(0), ObjectId::Cpu(1)],
    ),
    (
        b"tracepoint:t:e { if (cpu == 0) { @x = 1; } else { @y = 1; } }",
        b"@x: 1\n\n@y: 1\n\n",
        FIRST_PARTS,
    ),
];

#[test]
fn cpus_run_side_by_side(rt: HostRuntime) -> Result<(), Fail> {
    let alloc = rt.alloc();
    for (script, told, objects) in SIDE_BY_SIDE {
        let gate = UntilBoth::new();
        let answer = answer_to(&rt, alloc, &RUN, script, &ONE_EACH, &gate)?;
        assert!(rt; answer.is(told));
        assert!(rt; gate.has_noted(&rt, objects[0], objects[1]));
    }
    Ok(())
}

/// A recording of two CPUs with two events `e` each.
const TWO_EACH: [&[u8]; 16] = [
    b"BTRACE01\x02\0\0\0",
    HEAD,
    b"\0\0\0\0\x02\0\0\0",
    AT_0,
    REST,
    VALUE,
    AT_1,
    REST,
    VALUE,
    b"\x01\0\0\0\x02\0\0\0",
    AT_0,
    REST,
    VALUE,
    AT_1,
    REST,
    VALUE,
];

/// Scripts, recordings, and how many steps each run makes.
const STEPS: [(&[u8], &[&[u8]], usize); 2] = [
    // For each event an add, three reads and what is emitted.
    (b"tracepoint:t:e { @ = count(); print(@); }", &ONE_EACH, 10),
    // Four adds, and for each of two ticks two crossings, three reads and what is emitted.
    (
        b"tracepoint:t:e { @ = count(); } interval:s:1 { print(@); }",
        &TWO_EACH,
        16,
    ),
];

#[test]
fn every_schedule_has_as_many_steps(rt: HostRuntime) -> Result<(), Fail> {
    let alloc = rt.alloc();
    for (script, parts, wanted) in &STEPS {
        for _ in 0..50 {
            let answer = answer_to(&rt, alloc, &RUN, *script, *parts, &Open)?;
            assert_eq!(rt; answer.steps(), Some(*wanted));
        }
    }
    Ok(())
}
