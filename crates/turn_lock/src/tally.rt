// Two small objects that a lock can guard, for trying locks out.
ghost use Rattle.std.specs.Prelude.{◌≡◌, pos, List, []};
ghost use Rattle.turn_lock.specs.Sums.{IsAdd, number_of, total, sum_reply};

use crate::object::SeqObject;
use bt_core::memory::Memory;
use bt_core::step::{Op, Reply};
use bt_core::value::Value;
use std::alloc::{AllocError, Global};

/// Adds numbers up: it replies to each `Add` the sum so far, with this number, modulo 2^64 as a
/// signed number. No other operation is its own, and each `Add` is free.
#[derive(Drop)]
pub struct Tally {
    sum: i64,
}

impl Tally {
    ghost use Rattle.turn_lock.specs.Tallies.{sum_of};

    /// A tally that has added nothing yet.
    pub fn new() -> Tally
        ensures { sum_of result ≡ total [] }
    {
        Tally { sum: 0 }
    }
}

// The number that an operation adds.
fn number(op: &Op) -> i64
    ensures { result ≡ number_of op.now }
{
    match op {
        Op::Add(_, _, number) => *number,
        _ => 0,
    }
}

impl SeqObject for Tally {
    type Kind = ();

    ghost kind = { λ _. tt };

    ghost is_own = { λ _. IsAdd };

    ghost reply_after = { λ _. sum_reply };

    ghost stands_for = { λ tally ops. tally.sum ≡ total ops };

    ghost is_free = { λ _ _ _. Unit {0} };

    fn apply(&mut self, _alloc: Global, op: &Op, reply: &mut Reply) -> Result<(), Memory> {
        self.sum = self.sum.wrapping_add(number(op));
        *reply = Reply::Value(Value::Int(self.sum));
        Ok(())
    }
}

/// A tally that answers [`Memory`] at listed calls. No operation of it is free.
#[derive(Drop)]
pub struct Balky {
    tally: Tally,
    calls: u32,
    refused: Vec<u32>,
}

impl Balky {
    ghost use Rattle.turn_lock.specs.Tallies.{balky_sum_of};

    /// A tally that has added nothing yet, and refuses the calls with these numbers. Calls count
    /// from 1, those that were refused included.
    pub fn new(refused: Vec<u32>) -> Balky
        ensures { balky_sum_of result ≡ total [] }
    {
        Balky {
            tally: Tally::new(),
            calls: 0,
            refused,
        }
    }
}

impl SeqObject for Balky {
    type Kind = ();

    ghost kind = { λ _. tt };

    ghost is_own = { λ _. IsAdd };

    ghost reply_after = { λ _. sum_reply };

    ghost stands_for = { λ balky ops. balky.tally.sum ≡ total ops };

    ghost is_free = { λ _ _ _. ⊥ };

    fn apply(&mut self, alloc: Global, op: &Op, reply: &mut Reply) -> Result<(), Memory> {
        self.calls = self.calls.saturating_add(1);
        if self.refused.contains(&self.calls) {
            return Err(AllocError.into());
        }
        self.tally.apply(alloc, op, reply)
    }
}
