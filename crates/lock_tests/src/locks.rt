// Locks: that calls return, also with many callers on few processors, that the gate is told of each
// held turn once, and that turns of two locks are held at once.
ghost use Rattle.std.specs.Prelude.{ℕ, ◌<◌, length, slice_index_or};
ghost use Rattle.turn_lock.specs.Locks.{table_of, IsOf};
ghost use Rattle.turn_lock.specs.Calls.{AreTurns};
ghost use Rattle.turn_lock.specs.Sums.{IsAdd};
ghost use Rattle.bt_core.specs.declared.step.Reply.TheVariants.{Done};

use bt_core::key::Key;
use bt_core::map::MapId;
use bt_core::memory::Memory;
use bt_core::step::{ObjectId, Op, Reply};
use bt_core::value::Value;
use std::alloc::{AllocError, Global};
use std::sync::atomic::AtomicU64;
use std::sync::atomic::Ordering::SeqCst;
use std::sync::{Arc, Mutex, Wait};
use std::test::Fail;
use std::thread;
use std::thread::Threads;
use turn_lock::gate::{Gate, Open};
use turn_lock::lock::TurnLock;
use turn_lock::object::SeqObject;
use turn_lock::tally::Tally;
use turn_lock::turn::Turn;

fn add_one(alloc: Global) -> Op
    ensures { IsAdd result }
{
    Op::Add(MapId(0), Key::of(Vec::new(alloc)), 1)
}

// An answer of a lock: its stamp, and the sum in it.
type Answer = (u64, i64);

// Adds 1 so many times, and notes each answer. Without room for a note the test fails, since one is missing.
fn add_ones<R: Wait>(
    rt: &R,
    alloc: Global,
    lock: &TurnLock<Tally>,
    turn: &mut Turn,
    times: u32,
    answers: &Mutex<Vec<Answer>>,
)
    requires { IsOf lock.now turn.old }
{
    for _ in 0..times {
        let mut reply = Reply::Done;
        let called = lock.call(rt, alloc, turn, 0, &add_one(alloc), &mut reply, &Open);
        if let (Ok(stamp), Reply::Value(Value::Int(sum))) = (called, reply) {
            drop(answers.lock(rt).push((stamp, sum)));
        }
    }
}

// Each turn adds 1 so many times, in a thread of its own.
fn all_add_ones<R: Threads + Wait + Sync>(
    rt: &R,
    alloc: Global,
    lock: &TurnLock<Tally>,
    turns: &mut [Turn],
    times: u32,
    answers: &Mutex<Vec<Answer>>,
)
    requires some { 0 < length turns.old }
    requires of { (i : ℕ) (d : Turn) → i < length turns.old → IsOf lock.now (slice_index_or turns.old i d) }
{
    let threads = turns.len();
    thread::for_each_mut(
        rt,
        turns,
        threads,
        &|_, turn| add_ones(rt, alloc, lock, turn, times, answers),
    );
}

// The same, for all turns of the lock.
fn everyone_adds<R: Threads + Wait + Sync>(
    rt: &R,
    alloc: Global,
    lock: &TurnLock<Tally>,
    turns: &mut [Turn],
    times: u32,
    answers: &Mutex<Vec<Answer>>,
)
    requires some { 0 < length turns.old }
    requires turns { AreTurns (table_of lock.now) 0 turns.old }
{
    all_add_ones(rt, alloc, lock, turns, times, answers);
}

// The answers, by their stamps, that so many callers get on threads of their own, who add 1 so many times each.
fn crowd<R: Threads + Wait + Sync>(
    rt: &R,
    alloc: Global,
    callers: u32,
    times: u32,
) -> Result<Vec<Answer>, Memory>
    requires { 0 < callers }
{
    let (lock, mut turns) = TurnLock::new(alloc, Tally::new(), ObjectId::Cpu(0), callers)?;
    let answers = Mutex::new(Vec::new(alloc));
    everyone_adds(rt, alloc, &lock, turns.as_mut_slice(), times, &answers);
    let mut answers = answers.into_inner();
    answers.sort()?;
    Ok(answers)
}

// Whether the sums count up from 1 as the stamps rise.
fn counts_up(answers: &[Answer]) -> bool {
    let mut last: Answer = (0, 0);
    for (stamp, sum) in answers {
        if *stamp <= last.0 || last.1.checked_add(1) != Some(*sum) {
            return false;
        }
        last = (*stamp, *sum);
    }
    true
}

// No caller adds more often than so many times, so each does so where there are as many answers as that in all.
#[test]
fn callers_have_one_history(rt: HostRuntime) -> Result<(), Fail> {
    for (callers, times) in [(2, 1000), (8, 1000), (64, 50)] {
        let answers = crowd(&rt, rt.alloc(), callers, times)?;
        assert_eq!(rt; answers.len(), callers as usize * times as usize);
        assert!(rt; counts_up(answers.as_slice()), "{callers} callers");
    }
    Ok(())
}

// Counts the operations that come to it, and refuses each second one.
#[derive(Drop)]
struct Counted {
    taken: Arc<AtomicU64, Global>,
}

impl SeqObject for Counted {
    type Kind = ();

    ghost kind = { λ _. tt };

    ghost is_own = { λ _ _. Unit {0} };

    ghost reply_after = { λ _ _ _. Done };

    ghost stands_for = { λ _ _. Unit {0} };

    ghost is_free = { λ _ _ _. ⊥ };

    fn apply(&mut self, _alloc: Global, _op: &Op, reply: &mut Reply) -> Result<(), Memory> {
        if self.taken.fetch_add(1, SeqCst) % 2 == 1 {
            return Err(AllocError.into());
        }
        *reply = Reply::Done;
        Ok(())
    }
}

// Counts the turns that it is told of, in all and of caller 1, and the faults among them. A turn is
// in order where it is one of the lock's and where every turn before it has been used and this one
// has not: so no turn is told of while another is held, or once its operation was asked for.
#[derive(Drop)]
struct Counts {
    taken: Arc<AtomicU64, Global>,
    told: AtomicU64,
    of_caller_1: AtomicU64,
    faults: AtomicU64,
}

impl Gate for Counts {
    fn held<R: Wait>(&self, _rt: &R, actor: u32, object: ObjectId) {
        let before = self.told.fetch_add(1, SeqCst);
        thread::yield_now();
        if self.taken.load(SeqCst) != before || actor > 1 || object != ObjectId::Cpu(3) {
            self.faults.fetch_add(1, SeqCst);
        }
        if actor == 1 {
            self.of_caller_1.fetch_add(1, SeqCst);
        }
    }
}

// Makes so many calls. One that is refused passes its turn on.
fn stop_often<R: Wait>(
    rt: &R,
    alloc: Global,
    lock: &TurnLock<Counted>,
    mut turn: Turn,
    times: u32,
    gate: &Counts,
)
    requires { IsOf lock.now turn }
{
    for _ in 0..times {
        let mut reply = Reply::Done;
        drop(lock.call(rt, alloc, &mut turn, 0, &Op::Stop, &mut reply, gate));
    }
}

// Lets caller 0 make 100 calls and caller 1 make 150, on threads of their own.
fn both_stop<R: Threads + Wait + Sync>(rt: &R, alloc: Global, gate: &Counts) -> Result<(), Memory> {
    let counted = Counted {
        taken: Arc::try_clone(&gate.taken)?,
    };
    let (lock, mut turns) = TurnLock::new(alloc, counted, ObjectId::Cpu(3), 2)?;
    let shared = &lock;
    if let (Some(second), Some(first)) = (turns.pop(), turns.pop()) {
        thread::join(
            rt,
            move || stop_often(rt, alloc, shared, first, 100, gate),
            move || stop_often(rt, alloc, shared, second, 150, gate),
        );
    }
    Ok(())
}

#[test]
fn the_gate_is_told_of_each_held_turn_once(rt: HostRuntime) -> Result<(), Fail> {
    let gate = Counts {
        taken: Arc::new(rt.alloc(), AtomicU64::new(0))?,
        told: AtomicU64::new(0),
        of_caller_1: AtomicU64::new(0),
        faults: AtomicU64::new(0),
    };
    both_stop(&rt, rt.alloc(), &gate)?;
    assert_eq!(rt; gate.told.load(SeqCst), 250);
    assert_eq!(rt; gate.of_caller_1.load(SeqCst), 150);
    assert_eq!(rt; gate.faults.load(SeqCst), 0);
    assert_eq!(rt; gate.taken.load(SeqCst), 250);
    Ok(())
}

// Holds each turn until two are held.
#[derive(Drop)]
struct UntilTwo {
    held: AtomicU64,
}

impl Gate for UntilTwo {
    fn held<R: Wait>(&self, rt: &R, _actor: u32, _object: ObjectId) {
        self.held.fetch_add(1, SeqCst);
        for _ in rt.forever() {
            if self.held.load(SeqCst) >= 2 {
                return;
            }
            thread::yield_now();
        }
    }
}

// Adds 1 once to a new lock of one caller, and answers the stamp.
fn add_once<R: Wait>(rt: &R, alloc: Global, gate: &UntilTwo) -> Result<u64, Memory> {
    let (lock, mut turns) = TurnLock::new(alloc, Tally::new(), ObjectId::Out, 1)?;
    let mut reply = Reply::Done;
    let stamp = lock.call(
        rt,
        alloc,
        &mut turns[0],
        0,
        &add_one(alloc),
        &mut reply,
        gate,
    )?;
    Ok(stamp)
}

#[test]
fn turns_of_two_locks_are_held_at_once(rt: HostRuntime) -> Result<(), Fail> {
    let gate = UntilTwo {
        held: AtomicU64::new(0),
    };
    let shared = &gate;
    let (first, second) = thread::join(
        &rt,
        move || add_once(&rt, rt.alloc(), shared),
        move || add_once(&rt, rt.alloc(), shared),
    );
    assert_eq!(rt; (first, second), (Ok(1), Ok(1)));
    Ok(())
}
