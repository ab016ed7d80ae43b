// What an order comes to, and how it is written.
ghost use Rattle.std.specs.Prelude.{◌≡◌, OnOk, OnErr, length};
ghost use Rattle.std.specs.Io.KnownBytes.{Appends};
ghost use Rattle.bt_io.specs.Faults.{Rose};
ghost use Rattle.bt_io.specs.Taken.{AppendsPart};
ghost use Rattle.top_refusals.specs.Lines.{sink_use};
ghost use Rattle.bt_top.specs.Writing.{Wrote, WroteBytes};
ghost use Rattle.bt_top.specs.Offered.{OffersBoth};
ghost use Rattle.bt_top.specs.Outcomes.{bytes_written, shown_text};

use bpf_encode::program::Program;
use bt_core::items::Items;
use bt_io::sink::{Sink, SinkFailed, write_all};
use run_output::job::Work;
use top_refusals::refusal::{Denial, Refusal};

/// What an order comes to where its files are not refused: the work of a run; the programs that were run, listed or checked; why what it
/// checks is refused, where it is; whether the text of the work is written, which are JSON lines where these are asked for; and the bytes that
/// are written behind it.
#[derive(Drop)]
pub(crate) struct Outcome {
    pub work: Option<Work>,
    pub programs: Items<Program>,
    pub refused: Option<Denial>,
    pub prints: bool,
    pub rest: Items<u8>,
}

/// The text of the work, where there is work and its text is written.
fn shown_text(outcome: &Outcome) -> &[u8]
    ensures { result.now ≡ shown_text outcome.now }
{
    match &outcome.work {
        Some(work) if outcome.prints => work.text.as_slice(),
        _ => &[],
    }
}

/// Writes the bytes of an outcome, or a prefix of them where the sink fails.
fn write_outcome<K: Sink>(out: &mut K, outcome: &Outcome) -> Result<(), SinkFailed>
    ensures whole { OnOk result (Appends (K.taken out.old) (K.taken out.new) (bytes_written outcome.now)) }
    ensures part { OnErr result (AppendsPart (K.taken out.old) (K.taken out.new) (bytes_written outcome.now)) }
    ensures failed { OnErr result (Rose (K.faults out.old) (K.faults out.new)) }
    ensures offered { OffersBoth (K.offers out.old) (K.offers out.new) (length (shown_text outcome.now)) (length outcome.now.rest) }
{
    write_all(out, shown_text(outcome))?;
    write_all(out, outcome.rest.as_slice())
}

/// Writes the bytes of an outcome, and answers why that did not end, where it did not.
fn write_fault<K: Sink>(out: &mut K, outcome: &Outcome) -> Option<Refusal>
    ensures wrote { WroteBytes (sink_use K.taken K.faults out.old out.new) result (bytes_written outcome.now) }
    ensures offered { OffersBoth (K.offers out.old) (K.offers out.new) (length (shown_text outcome.now)) (length outcome.now.rest) }
{
    match write_outcome(out, outcome) {
        Ok(()) => None,
        Err(_) => Some(Refusal::WriteFault),
    }
}

/// Writes an outcome, and answers why that did not end, where it did not. Where what was checked is refused nothing is written.
pub(crate) fn write_refusal<K: Sink>(out: &mut K, outcome: &Outcome) -> Option<Refusal>
    ensures wrote { Wrote (sink_use K.taken K.faults out.old out.new) outcome.now.refused result (bytes_written outcome.now) }
    ensures offered { OffersBoth (K.offers out.old) (K.offers out.new) (length (shown_text outcome.now)) (length outcome.now.rest) }
{
    match outcome.refused {
        None => write_fault(out, outcome),
        Some(why) => Some(Refusal::Denied(why)),
    }
}
