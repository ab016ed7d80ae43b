// The top call.
ghost use Rattle.std.specs.Prelude.{◌≡◌, ◌≢◌, ◌↔◌, None, Some, IfSome, IsSome};
ghost use Rattle.bt_words.specs.Words.{HasBounds, order_of};
ghost use Rattle.top_jobs.specs.FailedNames.{FailsNamed};
ghost use Rattle.top_refusals.specs.Lines.{SinkFailed, sink_use};
ghost use Rattle.top_refusals.specs.Orders.{files_in, files_of, names_of};
ghost use Rattle.top_jobs.specs.Reads.{AsksExactly, AsksFirst, OnTold, shelf_use};
ghost use Rattle.top_refusals.specs.Refusals.{status_of, TellsRefusal};
ghost use Rattle.bt_top.specs.Headline.{Headline};
ghost use Rattle.bt_top.specs.Offered.{IsOffered};
ghost use Rattle.bt_top.specs.Serve.{AnswersOrder, EndsAsDue, HasWork, AnswersWords, IsComplete, ReadFailed};
ghost use Rattle.bt_top.specs.Verified.{Verified};
ghost use Rattle.bt_top.specs.Vetted.{Vetted};

use crate::outcome::{Outcome, write_refusal};
use crate::report::{Report, refused};
use crate::tasks::outcome_of;
use bt_io::shelf::Shelf;
use bt_io::sink::Sink;
use bt_words::order::{Order, WordsError};
use bt_words::read::read_words;
use std::alloc::Global;
use std::sync::Wait;
use std::thread::Threads;
use top_refusals::refusal::{Refusal, status_of};
use top_refusals::tell::{tell_memory, tell_refusal, tell_usage};
use turn_lock::gate::Gate;

/// What was done, and whether it was written.
fn reported(outcome: Outcome, refusal: Option<Refusal>) -> Report
    ensures { result ≡ record { status = status_of refusal; refusal = refusal; work = outcome.work; programs = outcome.programs } }
{
    Report {
        status: status_of(refusal),
        refusal,
        work: outcome.work,
        programs: outcome.programs,
    }
}

/// Does what an order asks for: reads its files, does its task, and writes what it comes to.
fn perform<S: Shelf, K: Sink, G: Gate + Sync, R: Threads + Wait + Sync>(
    rt: &R,
    alloc: Global,
    order: &Order,
    shelf: &mut S,
    out: &mut K,
    gate: &G,
) -> Report
    requires { HasBounds order.now }
    ensures status { result.status ≡ status_of result.refusal }
    ensures known { result.refusal ≢ Some Refusal.Usage }
    ensures asked { AsksFirst (S.asked shelf.old) (S.asked shelf.new) (names_of (files_of order.now)) }
    ensures asked_exactly { AsksExactly (files_of order.now) result.refusal (shelf_use S.held S.faults S.asked shelf.old shelf.new) }
    ensures fault_named { FailsNamed (files_of order.now) result.refusal (S.failed shelf.old) (S.failed shelf.new) }
    ensures answered { AnswersOrder order.now (shelf_use S.held S.faults S.asked shelf.old shelf.new)
        (sink_use K.taken K.faults out.old out.new) result }
    ensures exact { OnTold (S.held shelf.old) (files_of order.now) (EndsAsDue order.now result.refusal) }
    ensures worked { IsSome result.work ↔ HasWork result.refusal (Some order.now) }
    ensures headline { Headline (Some order.now) (shelf_use S.held S.faults S.asked shelf.old shelf.new)
        (sink_use K.taken K.faults out.old out.new) result }
    ensures vetted { Vetted (Some order.now) (shelf_use S.held S.faults S.asked shelf.old shelf.new)
        (sink_use K.taken K.faults out.old out.new) result }
    ensures verified { Verified (Some order.now) (shelf_use S.held S.faults S.asked shelf.old shelf.new)
        (sink_use K.taken K.faults out.old out.new) result }
    ensures offered { IsOffered (Some order.now) (sink_use K.taken K.faults out.old out.new) (K.offers out.old) (K.offers out.new) result }
{
    job_laws::laws::accepted_scripts_are_jobs();
    bt_meaning::laws::ticks_come_after();
    total_laws::read_laws::reads_see_beginnings();
    total_laws::read_laws::adds_are_own();
    rec_gen::script_laws::script_only_adds();
    total_laws::laws::totals_are_exact();
    let outcome = match outcome_of(rt, alloc, order, shelf, gate) {
        Ok(outcome) => outcome,
        Err(refusal) => return refused(alloc, refusal),
    };
    let refusal = write_refusal(out, &outcome);
    reported(outcome, refusal)
}

/// Does what the words ask for. `run SCRIPT RECORDING` runs the script over the recording, with each recorded CPU on a
/// thread of its own, and writes what it prints to `out`; `run --serial SCRIPT RECORDING` takes the items of all CPUs
/// one after the other, on one thread; with `--stats` the line `instructions: N` stands behind the text, with the
/// number of instructions that were executed. With `--json` it writes JSON lines in place of the text, and of that
/// line. `check SCRIPT RECORDING` does all of a run up to the code, and writes `ok` and a newline. `code SCRIPT
/// RECORDING` writes the listing of the programs: for each body the line `probe P K`, P the number of its probe from 0,
/// K one of `BEGIN`, `END`, `interval` and `tracepoint:S:E`, and then a line for each slot. `gen X N` writes the bytes
/// of the recording of the seed X and of N events. `big X N` runs the built-in script over this recording, with each
/// CPU on a thread of its own, and writes its text and behind it the line `summary: N events, M steps`, M the length of
/// the list of steps. `vet SCRIPT RECORDING` checks the bytes of the programs, by rules that know nothing of how they
/// were made, and writes for each body the line `probe P K: at most N instructions`, N being 4,097 times the slots of
/// its program; the first program that is refused is told in place of that. `account SCRIPT RECORDING`, with or without
/// `--serial`, runs the script as `run` does, and writes an account in place of the text: the bytes of all steps of the
/// run and of its text. `verify SCRIPT RECORDING ACCOUNT` checks an account against the script's own meaning, by rules
/// that know nothing of the run that it tells of, and writes `verified: N steps` and a newline; the first thing that is
/// wrong with it is told in place of that.
///
/// The programs of the script, one for each body in the order of the bodies, are handed back by `run`, `code`, `vet`,
/// `big` and `account`. Each keeps its body: its code makes the calls of the body's walk, and ends where the walk ends.
///
/// The work that is handed back has all steps of the run in one list. It is an interleaving: `BEGIN` makes its steps
/// first and `END` last, in between each CPU makes its whole program in its order, and each reply follows from the
/// steps before it. The bytes written are what the script's own meaning prints under this list.
///
/// The gate is told of each step while it is made, and may hold it up; a run on threads takes it, and nothing else
/// does. A run on threads may wait for others at the locks of its objects.
///
/// Refusals come in the order words, script read, recording read, account read, recording, lexing, parsing, attaching,
/// typing, frame and code, check of the code or of the account, run, write. A file that is too long is refused at its
/// read. A recording is refused with the first check that its bytes fail. A script is refused with the first lexical
/// fault of its text, the first fault of its tokens by the grammar of the bpftrace language, the first of its points
/// that may not be attached over this recording, the first rule of types that is broken in its bodies, in walk order,
/// or the first body that is too large, each with line and column. Want of memory may come at any of them. Before the
/// write nothing goes to `out`. What is refused is told by its line to `err`, and a fault there changes nothing else.
pub fn serve<S: Shelf, K: Sink, E: Sink, G: Gate + Sync, R: Threads + Wait + Sync>(
    rt: &R,
    alloc: Global,
    words: &[String],
    shelf: &mut S,
    out: &mut K,
    err: &mut E,
    gate: &G,
) -> Report
    ensures status { result.status ≡ status_of result.refusal }

    // The words are refused exactly where they break the rule. Then no file is asked for, and none is by `gen` and `big`.
    ensures usage { (result.refusal ≡ Some Refusal.Usage) ↔ (order_of words.now ≡ None) }
    ensures asked { AsksFirst (S.asked shelf.old) (S.asked shelf.new) (names_of (files_in (order_of words.now))) }
    ensures asked_exactly { AsksExactly (files_in (order_of words.now)) result.refusal (shelf_use S.held S.faults S.asked shelf.old shelf.new) }

    // A fault of a read is told of the file whose name the shelf noted as failed in this call, and of none where it noted none.
    ensures fault_named { FailsNamed (files_in (order_of words.now)) result.refusal (S.failed shelf.old) (S.failed shelf.new) }

    // What comes of an order is due to its files, or is a fault before which nothing was due; nothing is due to `gen` and `big`. At status 0 and
    // 5 there is what the order comes to: the work of a run, the programs of a run, a listing or a check, one for each body, which keeps it, and
    // the bytes, which are appended to the output: whole at status 0, and a prefix of them after a fault of the write. At status 8 there are the
    // programs. Else nothing is.
    ensures answered { AnswersWords (order_of words.now) (shelf_use S.held S.faults S.asked shelf.old shelf.new)
        (sink_use K.taken K.faults out.old out.new) result }
    ensures exact { IfSome (order_of words.now) (λ order. OnTold (S.held shelf.old) (files_of order) (EndsAsDue order result.refusal)) }
    ensures complete { IfSome (order_of words.now) (λ order. OnTold (S.held shelf.old) (files_of order)
        (IsComplete order (ReadFailed (files_of order) (shelf_use S.held S.faults S.asked shelf.old shelf.new))
        (SinkFailed (sink_use K.taken K.faults out.old out.new)) result.status)) }

    // Work is there at status 0 and 5 of `run`, `big` and `account`.
    ensures worked { IsSome result.work ↔ HasWork result.refusal (order_of words.now) }

    // The headline: where `run` or `big` ends with status 0, the bytes written are exactly those that the script's own meaning prints under
    // the interleaving handed back with them, as text or, with `--json`, as JSON lines, and the line of instructions where it is asked for.
    // Behind the text of `big`, which ends with exactly the totals of its maps, stands the line that tells its events and steps. Where `account`
    // ends with status 0, they are the account of that interleaving and of the text that it prints, which is true.
    ensures headline { Headline (order_of words.now) (shelf_use S.held S.faults S.asked shelf.old shelf.new)
        (sink_use K.taken K.faults out.old out.new) result }

    // What `vet` says of the programs that it hands back: status 8 comes exactly where the check refuses one of them, and the first such is
    // told, by its probe; else all are accepted, and the lines that tell so were written at status 0. No other order ends with status 8.
    ensures vetted { Vetted (order_of words.now) (shelf_use S.held S.faults S.asked shelf.old shelf.new)
        (sink_use K.taken K.faults out.old out.new) result }

    // What `verify` says of the account that it reads: status 7 comes exactly where something is wrong with it, and that is told; else it tells a
    // run that the script can make over the recording, and at status 0 the line that tells so was written. No other order ends with status 7.
    ensures verified { Verified (order_of words.now) (shelf_use S.held S.faults S.asked shelf.old shelf.new)
        (sink_use K.taken K.faults out.old out.new) result }

    // Each call of the output was offered all that was left of the text, and then of what stands behind it, but at most 4,096 bytes.
    ensures offered { IsOffered (order_of words.now) (sink_use K.taken K.faults out.old out.new) (K.offers out.old) (K.offers out.new) result }

    // The line of the refusal is appended to `err`, or a prefix of it where the count of its faults rose.
    ensures told { TellsRefusal (files_in (order_of words.now)) result.refusal (sink_use E.taken E.faults err.old err.new) }
{
    let order = match read_words(alloc, words) {
        Ok(order) => order,
        Err(WordsError::Usage) => {
            tell_usage(err);
            return refused(alloc, Refusal::Usage);
        }
        Err(WordsError::Memory) => {
            tell_memory(err);
            return refused(alloc, Refusal::Memory);
        }
    };
    let report = perform(rt, alloc, &order, shelf, out, gate);
    tell_refusal(err, &order, report.refusal);
    report
}
