// A sink that holds the bytes that it took.
ghost use Rattle.std.specs.Prelude.{◌≡◌, ◌<◌, ◌≤◌, ◌++◌, ◌↔◌, [], ℕ, List, true, length, take, min, Some, IsErr, IfOk, OnOk, OnErr};
ghost use Rattle.std.specs.Io.KnownBytes.{WriteAppends};
ghost use Rattle.bt_io.specs.Calls.{one_more};
ghost use Rattle.bt_io.specs.Faults.{Rose};
ghost use Rattle.mem_io.specs.MemSink.{next_fails, takes};
ghost use Rattle.bt_io.specs.Offers.{TellsOffer};

use crate::calls::is_among;
use bt_core::memory::Memory;
use bt_io::sink::{Sink, SinkFailed};
use std::alloc::Global;
use std::marker::Model;

/// A sink in memory, for tests. It tells the bytes that it took, and the calls that took bytes.
///
/// A call whose number is listed as failing answers [`SinkFailed`], and so does a call when the room
/// is used up; the count of faults rises by one then and at no other time. Every other call takes as
/// many bytes as the least of the piece's length, `most` and what is left of the room. Calls are
/// numbered from 1. The count of calls and the count of faults stand still at 2^64 - 1.
pub struct MemSink {
    taken: Vec<u8>,
    offers: Vec<(usize, usize)>,
    room: usize,
    most: usize,
    failing: Vec<u32>,
    calls: u64,
    faults: u64,
}

// Written out, so that it is one call wherever such a value is let go.
impl Drop for MemSink {
    fn drop(self) {
        let Self {
            taken: _,
            offers: _,
            room: _,
            most: _,
            failing: _,
            calls: _,
            faults: _,
        } = self;
    }
}

impl Model for MemSink {
    ghost use Rattle.std.specs.Prelude.{◌≤◌, ◌<◌, vec_len, vec_capacity};
    ghost use Rattle.mem_io.specs.MemSink.{SinkState};

    ghost Value = { SinkState };

    ghost view = { λ s. record {
      taken = s.taken.items;
      offers = s.offers.items;
      room = s.room;
      most = s.most;
      failing = s.failing.items;
      calls = s.calls;
      faults = s.faults;
    } };

    ghost invariant = { λ s. (0 < s.most) × (vec_len s.taken ≤ s.room) × (s.room ≤ vec_capacity s.taken)
        × (vec_len s.offers ≤ vec_len s.taken) × (s.room ≤ vec_capacity s.offers) };
}

impl MemSink {
    /// A sink that takes `room` bytes in all and at most `most` in one call, of which the calls listed
    /// in `failing` fail. It took nothing yet, and there was no call and no fault. [`Memory`] comes
    /// where there is no room for `room` bytes and as many calls.
    pub fn new(
        alloc: Global,
        room: usize,
        most: usize,
        failing: Vec<u32>,
    ) -> Result<MemSink, Memory>
        requires { 0 < most }
        ensures empty { IfOk result (λ sink. sink.taken ≡ []) }
        ensures unoffered { IfOk result (λ sink. sink.offers ≡ []) }
        ensures room { IfOk result (λ sink. sink.room ≡ room) }
        ensures most { IfOk result (λ sink. sink.most ≡ most) }
        ensures failing { IfOk result (λ sink. sink.failing ≡ failing.items) }
        ensures uncalled { IfOk result (λ sink. sink.calls ≡ 0) }
        ensures faultless { IfOk result (λ sink. sink.faults ≡ 0) }
    {
        Ok(MemSink {
            taken: Vec::with_capacity(alloc, room)?,
            offers: Vec::with_capacity(alloc, room)?,
            room,
            most,
            failing,
            calls: 0,
            faults: 0,
        })
    }

    /// The bytes that were taken so far.
    pub fn taken(&self) -> &[u8]
        ensures bytes { result.now ≡ self.now.taken }
        ensures within { length self.now.taken ≤ self.now.room }
    {
        self.taken.as_slice()
    }

    /// The calls that took bytes, each with how many bytes it was offered and how many it took.
    pub fn offers(&self) -> &[(usize, usize)]
        ensures { result.now ≡ self.now.offers }
    {
        self.offers.as_slice()
    }
}

impl Sink for MemSink {
    ghost taken = { λ s. Some s.taken };

    ghost faults = { λ s. s.faults };

    ghost offers = { λ s. Some s.offers };

    fn write(&mut self, piece: &[u8]) -> Result<usize, SinkFailed>
        requires { 0 < length piece.now }

        // When it fails, and how many bytes it takes.
        ensures fails { IsErr result ↔ (next_fails self.old ≡ true) }
        ensures count { IfOk result (λ n. n ≡ takes self.old piece.now) }

        // What stands after it.
        ensures appended { IfOk result (λ n. self.new.taken ≡ self.old.taken ++ take n piece.now) }
        ensures nothing { OnErr result (self.new.taken ≡ self.old.taken) }
        ensures room_kept { self.new.room ≡ self.old.room }
        ensures most_kept { self.new.most ≡ self.old.most }
        ensures failing_kept { self.new.failing ≡ self.old.failing }
        ensures counted { self.new.calls ≡ one_more self.old.calls }
        ensures fault { OnErr result (self.new.faults ≡ one_more self.old.faults) }
        ensures no_fault { OnOk result (self.new.faults ≡ self.old.faults) }

        // What every sink promises.
        ensures some { IfOk result (λ n. 0 < n) }
        ensures within { IfOk result (λ n. n ≤ length piece.now) }
        ensures bytes { WriteAppends (Some self.old.taken) (Some self.new.taken) result piece.now }
        ensures failed { OnErr result (Rose self.old.faults self.new.faults) }
        ensures later { self.old.faults ≤ self.new.faults }
        ensures offered { TellsOffer (Some self.old.offers) (Some self.new.offers) (length piece.now) result }
    {
        self.calls = self.calls.saturating_add(1);
        let left = self.room - self.taken.len();
        if is_among(self.calls, self.failing.as_slice()) || left == 0 {
            self.faults = self.faults.saturating_add(1);
            return Err(SinkFailed);
        }
        let count = piece.len().min(self.most).min(left);
        self.offers.push((piece.len(), count)).unwrap();
        self.taken.extend_from_slice(&piece[..count]).unwrap();
        Ok(count)
    }
}
