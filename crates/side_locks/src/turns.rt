// The turns of one actor at the tick clock and at the output.
ghost use Rattle.std.specs.Prelude.{◌≡◌, [], vec_len, IfOk};
ghost use Rattle.side_locks.specs.Turns.{clocks, outs};

use bt_core::memory::Memory;
use stamped::turns::Turns;
use std::alloc::Global;
use std::marker::Model;

/// The turns of one actor, at the tick clock and at the output. They are a pair, since the clock and the
/// output are of two types, so that each has a set of locks of its own.
///
/// Contracts see the actor's number and the list of its turns, once for each of the two.
#[derive(Drop)]
pub struct SideTurns {
    pub(crate) at_clock: Turns,
    pub(crate) at_out: Turns,
}

impl Model for SideTurns {
    ghost use Rattle.side_locks.specs.Turns.{Both};

    ghost Value = { Both };

    ghost view = { λ t. record { clock = t.at_clock; out = t.at_out } };
}

impl SideTurns {
    /// The turns of an actor at neither. It takes no memory.
    pub fn none(alloc: Global, actor: u32) -> SideTurns
        ensures { result ≡ record { clock = (actor, []); out = (actor, []) } }
    {
        SideTurns {
            at_clock: Turns::none(alloc, actor),
            at_out: Turns::none(alloc, actor),
        }
    }

    /// The actor's number.
    pub fn actor(&self) -> u32
        ensures { result ≡ self.now.clock.0 }
    {
        self.at_clock.actor()
    }
}

// The turns of each actor at both, of as many actors at the one as at the other.
pub(crate) fn joined(
    alloc: Global,
    clock_rows: Vec<Turns>,
    out_rows: Vec<Turns>,
) -> Result<Vec<SideTurns>, Memory>
    requires { vec_len clock_rows ≡ vec_len out_rows }
    ensures clock { IfOk result (λ all. clocks all.items ≡ clock_rows.items) }
    ensures out { IfOk result (λ all. outs all.items ≡ out_rows.items) }
{
    let mut all = Vec::with_capacity(alloc, clock_rows.len())?;
    for (at_clock, at_out) in clock_rows.into_iter().zip(out_rows) {
        all.push(SideTurns { at_clock, at_out })?;
    }
    Ok(all)
}

// The turns of each actor at the clock, and those at the output.
pub(crate) fn parted(alloc: Global, all: Vec<SideTurns>) -> Result<(Vec<Turns>, Vec<Turns>), Memory>
    ensures clock { IfOk result (λ r. r.0.items ≡ clocks all.items) }
    ensures out { IfOk result (λ r. r.1.items ≡ outs all.items) }
{
    let mut clock_rows = Vec::with_capacity(alloc, all.len())?;
    let mut out_rows = Vec::with_capacity(alloc, all.len())?;
    for turns in all {
        let SideTurns { at_clock, at_out } = turns;
        clock_rows.push(at_clock)?;
        out_rows.push(at_out)?;
    }
    Ok((clock_rows, out_rows))
}
