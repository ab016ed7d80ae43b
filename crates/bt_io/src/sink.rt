// What takes bytes.
ghost use Rattle.std.specs.Prelude.{◌≡◌, ◌<◌, ◌≤◌, ℕ, List, Option, None, length, IfOk, OnErr, OnOk};
ghost use Rattle.std.specs.Io.KnownBytes.{Appends, WriteAppends};
ghost use Rattle.bt_io.specs.declared.sink.TheConstants.{PIECE};
ghost use Rattle.bt_io.specs.Faults.{Rose};
ghost use Rattle.bt_io.specs.Offers.{OffersAllLeft, TellsOffer};
ghost use Rattle.bt_io.specs.Taken.{AppendsPart};

use thiserror::Error;

/// A sink took nothing.
#[derive(Clone, Copy, PartialEq, Eq, Debug, Error)]
#[error("write fault")]
pub struct SinkFailed;

/// The most bytes that [`write_all`] offers in one call.
pub const PIECE: usize = 4096;

/// A call offers 4,096 bytes at most. Nothing runs.
pub fn pieces_are()
    ensures { PIECE ≡ 4096 }
{}

/// What takes bytes.
pub trait Sink {
    /// The bytes that were taken so far, where the sink tells them.
    ghost taken: { Self → Option (List ℕ) };

    /// How many faults there were, which never falls.
    ghost faults: { Self → ℕ };

    /// The calls that took bytes, each with how many it was offered and how many it took, where the
    /// sink tells them.
    ghost offers: { Self → Option (List (ℕ × ℕ)) } = { λ _. None };

    /// Takes at least one of the first bytes of the piece, and answers how many.
    ///
    /// Answers [`SinkFailed`] only where the count of faults rose, and then took nothing.
    fn write(&mut self, piece: &[u8]) -> Result<usize, SinkFailed>
        requires { 0 < length piece.now }
        ensures some { IfOk result (λ n. 0 < n) }
        ensures within { IfOk result (λ n. n ≤ length piece.now) }
        ensures bytes { WriteAppends (taken self.old) (taken self.new) result piece.now }
        ensures failed { OnErr result (Rose (faults self.old) (faults self.new)) }
        ensures later { faults self.old ≤ faults self.new }
        ensures offered { TellsOffer (offers self.old) (offers self.new) (length piece.now) result };
}

/// Writes all the bytes. Each call to the sink is offered all that are left, but at most 4,096.
///
/// After [`SinkFailed`], which comes only where the sink's count of faults rose, a prefix of the
/// bytes was taken.
pub fn write_all<K: Sink>(sink: &mut K, bytes: &[u8]) -> Result<(), SinkFailed>
    ensures whole { OnOk result (Appends (K.taken sink.old) (K.taken sink.new) bytes.now) }
    ensures part { OnErr result (AppendsPart (K.taken sink.old) (K.taken sink.new) bytes.now) }
    ensures failed { OnErr result (Rose (K.faults sink.old) (K.faults sink.new)) }
    ensures later { K.faults sink.old ≤ K.faults sink.new }
    ensures offered { OffersAllLeft (K.offers sink.old) (K.offers sink.new) (length bytes.now) }
{
    let mut done = 0;
    while done < bytes.len() {
        let end = bytes.len().min(done + PIECE);
        done += sink.write(&bytes[done..end])?;
    }
    Ok(())
}
