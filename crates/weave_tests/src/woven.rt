// The woven list: that the steps of real traces have the stamps of a worked example and are woven, and that many steps are put in order in
// time.
ghost use Rattle.std.specs.Prelude.{◌≡◌};
ghost use Rattle.turn_lock.specs.Calls.{caller_of};
ghost use Rattle.turn_lock.specs.Locks.{IsOf};
ghost use Rattle.turn_lock.specs.Sums.{IsAdd};
ghost use Rattle.stamped.specs.Traces.{actor_of};

use bt_core::key::Key;
use bt_core::map::MapId;
use bt_core::memory::Memory;
use bt_core::step::{ObjectId, Op, Reply, Step};
use bt_core::value::Value;
use stamped::perform::perform;
use stamped::trace::Trace;
use std::alloc::Global;
use std::sync::Wait;
use std::test::Fail;
use step_list::list::StepList;
use turn_lock::gate::Open;
use turn_lock::lock::TurnLock;
use turn_lock::tally::Tally;
use turn_lock::turn::Turn;
use weave::weave::weave;
use weave::woven::Woven;

fn add(alloc: Global, number: i64) -> Op
    ensures { IsAdd result }
{
    Op::Add(MapId(0), Key::of(Vec::new(alloc)), number)
}

// Adds a number at a lock, as one step.
fn add_at<R: Wait>(
    rt: &R,
    alloc: Global,
    lock: &TurnLock<Tally>,
    turn: &mut Turn,
    trace: &mut Trace,
    number: i64,
) -> Result<(), Memory>
    requires turn { IsOf lock.now turn.old }
    requires actor { caller_of turn.old ≡ actor_of trace.old }
    ensures turn { IsOf lock.now turn.new × (caller_of turn.new ≡ caller_of turn.old) }
    ensures actor { actor_of trace.new ≡ actor_of trace.old }
{
    let mut op = add(alloc, number);
    perform(rt, alloc, lock, turn, trace, &mut op, &Open)
}

// The trace of the first actor: it comes to the table, to the output and back to the table.
fn first_trace<R: Wait>(
    rt: &R,
    alloc: Global,
    table: &TurnLock<Tally>,
    at_table: &mut Turn,
    out: &TurnLock<Tally>,
    at_out: &mut Turn,
) -> Result<Trace, Memory>
    requires table { IsOf table.now at_table.old × (caller_of at_table.old ≡ 0) }
    requires out { IsOf out.now at_out.old × (caller_of at_out.old ≡ 0) }
{
    let mut trace = Trace::new(alloc, 0);
    add_at(rt, alloc, table, at_table, &mut trace, 5)?;
    add_at(rt, alloc, out, at_out, &mut trace, 3)?;
    add_at(rt, alloc, table, at_table, &mut trace, -2)?;
    Ok(trace)
}

// The trace of the second actor, which comes to the output.
fn second_trace<R: Wait>(
    rt: &R,
    alloc: Global,
    out: &TurnLock<Tally>,
    at_out: &mut Turn,
) -> Result<Trace, Memory>
    requires out { IsOf out.now at_out.old × (caller_of at_out.old ≡ 1) }
{
    let mut trace = Trace::new(alloc, 1);
    add_at(rt, alloc, out, at_out, &mut trace, 7)?;
    Ok(trace)
}

// Both actors come first at an object of theirs, and then the first one comes to the second's and back to its own.
fn traces<R: Wait>(rt: &R, alloc: Global) -> Result<Vec<Trace>, Memory> {
    let (table, mut table_turns) = TurnLock::new(alloc, Tally::new(), ObjectId::Cpu(0), 2)?;
    let (out, mut out_turns) = TurnLock::new(alloc, Tally::new(), ObjectId::Out, 2)?;
    let second = second_trace(rt, alloc, &out, &mut out_turns[1])?;
    let (at_table, at_out) = (&mut table_turns[0], &mut out_turns[0]);
    let first = first_trace(rt, alloc, &table, at_table, &out, at_out)?;
    Ok(vec![in alloc; second, first]?)
}

/// The actor, the object, the stamp, the number and the sum of each of their steps, in order.
const STEPS: [(u32, ObjectId, u64, i64, i64); 4] = [
    (0, ObjectId::Cpu(0), 1, 5, 5),
    (1, ObjectId::Out, 1, 7, 7),
    (0, ObjectId::Out, 2, 3, 10),
    (0, ObjectId::Cpu(0), 3, -2, 3),
];

/// Whether a step is that of a row.
fn is_step(alloc: Global, step: &Step, at: usize) -> bool {
    let (actor, object, stamp, number, sum) = STEPS[at % STEPS.len()];
    let want = Step {
        actor,
        object,
        stamp,
        op: add(alloc, number),
        reply: Reply::Value(Value::Int(sum)),
    };
    *step == want
}

#[test]
fn stamps_count_up_and_steps_come_by_stamp_and_then_by_object(rt: HostRuntime) -> Result<(), Fail> {
    let alloc = rt.alloc();
    let woven = weave(alloc, traces(&rt, alloc)?)?;
    let steps = woven.to_vec(alloc)?;
    assert!(rt; woven.len() == STEPS.len() && steps.len() == STEPS.len());
    for (place, step) in steps.as_slice().iter().enumerate() {
        assert!(rt; is_step(alloc, step, place), "step {place}");
    }
    Ok(())
}

// A quarter of a million steps of one actor, with each fourth stamp from this one on.
fn fourth(alloc: Global, actor: u32, first: u64) -> Result<StepList, Memory> {
    let mut list = StepList::new(alloc);
    for i in 0..250000u64 {
        list.reserve(alloc)?;
        list.push_reserved(
            actor,
            ObjectId::Clock,
            (4 * i).saturating_add(first),
            &mut Op::Check,
            &mut Reply::Stopped(false),
        );
    }
    Ok(list)
}

// The lists of four actors, whose stamps are all numbers below a million, woven.
fn million(alloc: Global) -> Result<Woven, Memory> {
    let mut lists = Vec::new(alloc);
    for (actor, first) in [(0, 2), (1, 0), (2, 3), (3, 1)] {
        lists.push(fourth(alloc, actor, first)?)?;
    }
    Woven::of(lists)
}

/// The stamp and the actor of the step at a place.
fn at(steps: &[Step], place: usize) -> Option<(u64, u32)> {
    let step = steps.get(place)?;
    Some((step.stamp, step.actor))
}

/// The stamp and the actor at some places of them.
const PLACES: [(usize, u64, u32); 3] = [(0, 0, 1), (123456, 123456, 1), (999999, 999999, 2)];

#[test]
fn a_million_steps_are_put_in_order(rt: HostRuntime) -> Result<(), Fail> {
    let alloc = rt.alloc();
    let woven = million(alloc)?;
    assert_eq!(rt; woven.len(), 1000000);
    assert!(rt; woven.emitted(alloc)?.is_empty());
    let steps = woven.to_vec(alloc)?;
    assert!(rt; steps.len() == 1000000);
    for (place, stamp, actor) in PLACES {
        assert_eq!(rt; at(steps.as_slice(), place), Some((stamp, actor)));
    }
    Ok(())
}
