// What is told of each refusal.
ghost use Rattle.std.specs.Prelude.{◌≡◌, ◌∷◌, [], codes};
ghost use Rattle.recordings.specs.declared.error.RecordingError.TheVariants as wrong;
ghost use Rattle.top_refusals.specs.declared.refusal.Refusal.TheVariants as refusal;
ghost use Rattle.top_refusals.specs.declared.refusal.ScriptRefusal.TheVariants as refused;
ghost use Rattle.top_refusals.specs.Lines.{Writes, sink_use, Text, Number};
ghost use Rattle.top_refusals.specs.Refusals.{account_pieces, count_word, event_pieces, fault_pieces, broken_format_pieces, rule_pieces};
ghost use Rattle.top_refusals.specs.Told.{number_pieces, told_pieces};
ghost use Rattle.top_refusals.specs.Refusals.{recording_pieces, refusal_pieces, rule_text, script_fault_text, script_pieces, size_in, unit_in, usage_pieces};
ghost use Rattle.top_refusals.specs.Orders.{files_of, on_account, on_script, operand_name};
ghost use Rattle.top_refusals.specs.Refusals.{TellsRefusal};

use crate::line::{Piece, write_line};
use crate::refusal::{Denial, Operand, RecordingRefusal, Refusal, ScriptFault, ScriptRefusal};
use account_format::error::AccountError;
use bt_core::place::Place;
use bt_io::sink::Sink;
use bt_words::order::{FileName, Order};
use event_layout::error::FormatError;
use expr_types::fault::Rule;
use recordings::error::{CountOf, RecordingError};

/// What is told of a fault behind the name of its file and a colon: a text, with or without a number behind it, or what is wrong
/// with a count, a format or an entry.
enum Told {
    Text(&'static str),
    Numbered(&'static str, u64),
    Count(CountOf),
    Format(u32, FormatError),
    Entry(&'static str, u32, u32),
}

/// The number that is out of its bounds.
fn count_word(what: CountOf) -> &'static str
    ensures { result.now ≡ count_word what }
{
    match what {
        CountOf::Cpus => "cpus",
        CountOf::Formats => "formats",
        CountOf::Events => "events",
        CountOf::Span => "span",
    }
}

/// The rule of types that a script breaks.
fn rule_text(rule: Rule) -> &'static str
    ensures { result.now ≡ rule_text rule }
{
    match rule {
        Rule::UnknownField => "Y1 unknown field",
        Rule::FieldNotReadable => "Y2 field not readable",
        Rule::OtherKind => "Y3 map used in two ways",
        Rule::OtherKeys => "Y4 key shape differs",
        Rule::NotSet => "Y5 variable not set",
        Rule::WrongType => "Y6 wrong type",
        Rule::BadFormat => "Y7 bad format",
        Rule::BadBounds => "Y8 bad lhist",
        Rule::AggregationRead => "Y9 aggregation read",
        Rule::NoEvent => "Y10 args outside a tracepoint",
        Rule::TooManyMaps => "Y11 too many maps",
        Rule::NoLoop => "Y12 jump outside a loop",
    }
}

/// What is wrong with a script, without its place.
fn script_fault_text(fault: ScriptFault) -> &'static str
    ensures { result.now ≡ script_fault_text fault }
{
    match fault {
        ScriptFault::BadCharacter => "X1 bad character",
        ScriptFault::OpenString => "X2 open string",
        ScriptFault::OpenComment => "X3 open comment",
        ScriptFault::NumberTooLarge => "X4 number too large",
        ScriptFault::BadEscape => "X5 bad escape",
        ScriptFault::StringTooLong => "X6 string too long",
        ScriptFault::Syntax => "P1 syntax",
        ScriptFault::TooDeep => "P2 too deep",
        ScriptFault::TooManyProbes => "P3 too many probes",
        ScriptFault::UnknownTracepoint => "A1 unknown tracepoint",
        ScriptFault::NoMatch => "A2 no match",
        ScriptFault::BadPeriod => "A3 bad period",
        ScriptFault::TooManyTicks => "A4 too many ticks",
        ScriptFault::TooManyAttached => "A5 too many attachments",
        ScriptFault::Types(rule) => rule_text(rule),
        ScriptFault::FrameTooLarge(_) => "K1 frame too large: ",
        ScriptFault::CodeTooLarge(_) => "K2 code too large: ",
    }
}

/// How large something is that is too large.
fn size_in(fault: ScriptFault) -> Option<u64>
    ensures { result ≡ size_in fault }
{
    match fault {
        ScriptFault::FrameTooLarge(bytes) => Some(bytes),
        ScriptFault::CodeTooLarge(slots) => Some(slots),
        _ => None,
    }
}

/// In what that is counted.
fn unit_in(fault: ScriptFault) -> &'static str
    ensures { result.now ≡ unit_in fault }
{
    match fault {
        ScriptFault::FrameTooLarge(_) => " bytes",
        ScriptFault::CodeTooLarge(_) => " slots",
        _ => "",
    }
}

/// The one of two names that an operand has.
fn one_of<'o>(script: &'o FileName, recording: &'o FileName, operand: Operand) -> &'o str
    ensures { result.now ≡ operand_name (on_script script.now recording.now) operand }
{
    match operand {
        Operand::Script => script.as_str(),
        Operand::Recording => recording.as_str(),
        Operand::Account => "",
    }
}

/// The one of three names that an operand has.
fn one_of_three<'o>(
    script: &'o FileName,
    recording: &'o FileName,
    account: &'o FileName,
    operand: Operand,
) -> &'o str
    ensures { result.now ≡ operand_name (on_account script.now recording.now account.now) operand }
{
    match operand {
        Operand::Script => script.as_str(),
        Operand::Recording => recording.as_str(),
        Operand::Account => account.as_str(),
    }
}

/// The name that an order gives an operand.
fn operand_name(order: &Order, operand: Operand) -> &str
    ensures { result.now ≡ operand_name (files_of order.now) operand }
{
    match order {
        Order::Run {
            serial: _,
            stats: _,
            json: _,
            script,
            recording,
        } => one_of(script, recording, operand),
        Order::Check { script, recording } => one_of(script, recording, operand),
        Order::Code { script, recording } => one_of(script, recording, operand),
        Order::Vet { script, recording } => one_of(script, recording, operand),
        Order::Account {
            serial: _,
            script,
            recording,
        } => one_of(script, recording, operand),
        Order::Verify {
            script,
            recording,
            account,
        } => one_of_three(script, recording, account, operand),
        Order::Gen { .. } | Order::Big { .. } => "",
    }
}

/// Tells that the text of a format breaks a rule.
fn tell_rule<E: Sink>(err: &mut E, name: &str, place: u32, rule: &'static str)
    ensures { Writes (sink_use E.taken E.faults err.old err.new) (Text name.now ∷ Text (codes ": ") ∷ broken_format_pieces place (Text rule.now ∷ [])) }
{
    let colon = Piece::Text(": ");
    let head = Piece::Text("C4 format ");
    let place = Piece::Number(u64::from(place));
    let rule = Piece::Text(rule);
    write_line(err, &[Piece::Text(name), colon, head, place, colon, rule]);
}

/// Tells that the text of a format breaks a rule in a line.
fn tell_rule_at<E: Sink>(err: &mut E, name: &str, place: u32, rule: &'static str, line: u32)
    ensures { Writes (sink_use E.taken E.faults err.old err.new) (Text name.now ∷ Text (codes ": ") ∷ broken_format_pieces place (Text rule.now ∷ Number line ∷ [])) }
{
    let name = Piece::Text(name);
    let colon = Piece::Text(": ");
    let head = Piece::Text("C4 format ");
    let place = Piece::Number(u64::from(place));
    let rule = Piece::Text(rule);
    let line = Piece::Number(u64::from(line));
    write_line(err, &[name, colon, head, place, colon, rule, line]);
}

/// The rule that the text of a format breaks, and its line where it has one.
fn rule_told(rule: FormatError) -> (&'static str, Option<u32>)
    ensures { Text result.0.now ∷ number_pieces result.1 ≡ rule_pieces rule }
{
    match rule {
        FormatError::NoName => ("F1 no name", None),
        FormatError::BadId => ("F2 bad id", None),
        FormatError::BadField(line) => ("F3 bad line ", Some(line)),
        FormatError::Overlong(line) => ("F4 overlong line ", Some(line)),
        FormatError::SameName(line) => ("F5 same name line ", Some(line)),
        FormatError::Memory(_) => ("out of memory", None),
    }
}

/// Tells which rule the text of a format breaks, and its line where it has one.
fn tell_format<E: Sink>(err: &mut E, name: &str, place: u32, rule: FormatError)
    ensures { Writes (sink_use E.taken E.faults err.old err.new) (Text name.now ∷ Text (codes ": ") ∷ fault_pieces (wrong.Format place rule)) }
{
    let (text, line) = rule_told(rule);
    match line {
        None => tell_rule(err, name, place, text),
        Some(line) => tell_rule_at(err, name, place, text, line),
    }
}

/// Tells what is wrong with an entry, which the text calls an event, by its place and its CPU.
fn tell_event<E: Sink>(err: &mut E, name: &str, what: &'static str, cpu: u32, event: u32)
    ensures { Writes (sink_use E.taken E.faults err.old err.new) (Text name.now ∷ Text (codes ": ") ∷ event_pieces what.now cpu event) }
{
    let name = Piece::Text(name);
    let what = Piece::Text(what);
    let event = Piece::Number(u64::from(event));
    let cpu = Piece::Number(u64::from(cpu));
    let colon = Piece::Text(": ");
    let in_event = Piece::Text(" in event ");
    let of_cpu = Piece::Text(" of cpu ");
    write_line(err, &[name, colon, what, in_event, event, of_cpu, cpu]);
}

/// Tells a text behind a name.
fn tell_text<E: Sink>(err: &mut E, name: &str, text: &'static str)
    ensures { Writes (sink_use E.taken E.faults err.old err.new) (Text name.now ∷ Text (codes ": ") ∷ Text text.now ∷ []) }
{
    let colon = Piece::Text(": ");
    write_line(err, &[Piece::Text(name), colon, Piece::Text(text)]);
}

/// Tells a text and a number behind a name.
fn tell_numbered<E: Sink>(err: &mut E, name: &str, text: &'static str, number: u64)
    ensures { Writes (sink_use E.taken E.faults err.old err.new) (Text name.now ∷ Text (codes ": ") ∷ Text text.now ∷ Number number ∷ []) }
{
    let colon = Piece::Text(": ");
    let number = Piece::Number(number);
    write_line(err, &[Piece::Text(name), colon, Piece::Text(text), number]);
}

/// Tells which number is out of its bounds.
fn tell_count<E: Sink>(err: &mut E, name: &str, what: CountOf)
    ensures { Writes (sink_use E.taken E.faults err.old err.new) (Text name.now ∷ Text (codes ": ") ∷ fault_pieces (wrong.Count what)) }
{
    let colon = Piece::Text(": ");
    let head = Piece::Text("C3 bad count: ");
    let word = Piece::Text(count_word(what));
    write_line(err, &[Piece::Text(name), colon, head, word]);
}

/// What is told of the first check that the bytes of a recording fail.
fn fault_told(error: RecordingError) -> Told
    ensures { told_pieces result ≡ fault_pieces error }
{
    match error {
        RecordingError::Truncated(offset) => Told::Numbered("C1 truncated at byte ", offset),
        RecordingError::BadMagic => Told::Text("C2 bad magic"),
        RecordingError::Count(what) => Told::Count(what),
        RecordingError::Format(place, rule) => Told::Format(place, rule),
        RecordingError::SameEvent(place) => {
            Told::Numbered("C5 same event in format ", u64::from(place))
        }
        RecordingError::CpuNumber(cpu) => {
            Told::Numbered("C6 bad cpu number at cpu ", u64::from(cpu))
        }
        RecordingError::TimeOrder(cpu, event) => Told::Entry("C7 time order", cpu, event),
        RecordingError::UnknownId(cpu, event) => Told::Entry("C8 unknown id", cpu, event),
        RecordingError::ShortPayload(cpu, event) => Told::Entry("C9 short payload", cpu, event),
        RecordingError::TrailingBytes(offset) => {
            Told::Numbered("C10 trailing bytes at byte ", offset)
        }
        RecordingError::BadSystem(place) => {
            Told::Numbered("C11 bad system in format ", u64::from(place))
        }
        RecordingError::BadEntry(cpu, event) => Told::Entry("C12 bad entry", cpu, event),
        RecordingError::EmptyMark(cpu, event) => Told::Entry("C13 empty mark", cpu, event),
        RecordingError::Memory => Told::Text("out of memory"),
    }
}

/// What is told of the first thing that is wrong with an account.
fn account_told(error: AccountError) -> Told
    ensures { told_pieces result ≡ account_pieces error }
{
    match error {
        AccountError::BadAccount(offset) => Told::Numbered("N1 bad account at byte ", offset),
        AccountError::WrongStep(step) => Told::Numbered("N2 wrong step ", step),
        AccountError::Unfinished => Told::Text("N3 unfinished"),
        AccountError::WrongText(offset) => Told::Numbered("N4 wrong text at byte ", offset),
        AccountError::Memory(_) => Told::Text("out of memory"),
    }
}

/// Tells a fault behind the name of its file.
fn tell_fault<E: Sink>(err: &mut E, name: &str, told: Told)
    ensures { Writes (sink_use E.taken E.faults err.old err.new) (Text name.now ∷ Text (codes ": ") ∷ told_pieces told) }
{
    match told {
        Told::Text(text) => tell_text(err, name, text),
        Told::Numbered(text, number) => tell_numbered(err, name, text, number),
        Told::Count(what) => tell_count(err, name, what),
        Told::Format(place, rule) => tell_format(err, name, place, rule),
        Told::Entry(what, cpu, event) => tell_event(err, name, what, cpu, event),
    }
}

/// Tells a text behind the name of a file. It begins with what parts it from the name.
fn tell_behind<E: Sink>(err: &mut E, name: &str, text: &'static str)
    ensures { Writes (sink_use E.taken E.faults err.old err.new) (Text name.now ∷ Text text.now ∷ []) }
{
    write_line(err, &[Piece::Text(name), Piece::Text(text)]);
}

/// Tells why a recording is refused.
fn tell_recording<E: Sink>(err: &mut E, name: &str, why: RecordingRefusal)
    ensures { Writes (sink_use E.taken E.faults err.old err.new) (Text name.now ∷ recording_pieces why) }
{
    match why {
        RecordingRefusal::TooLong => tell_behind(err, name, ": recording too long"),
        RecordingRefusal::Fault(error) => tell_fault(err, name, fault_told(error)),
    }
}

/// Tells the fault of a script with its line and column.
fn tell_place<E: Sink>(err: &mut E, name: &str, fault: ScriptFault, place: Place)
    ensures { Writes (sink_use E.taken E.faults err.old err.new) (Text name.now ∷ script_pieces (refused.Fault fault place)) }
{
    let name = Piece::Text(name);
    let colon = Piece::Text(":");
    let line = Piece::Number(u64::from(place.line));
    let column = Piece::Number(u64::from(place.column));
    let space = Piece::Text(": ");
    let text = Piece::Text(script_fault_text(fault));
    match size_in(fault) {
        None => write_line(err, &[name, colon, line, colon, column, space, text]),
        Some(size) => {
            let size = Piece::Number(size);
            let unit = Piece::Text(unit_in(fault));
            write_line(
                err,
                &[name, colon, line, colon, column, space, text, size, unit],
            )
        }
    }
}

/// Tells why a script is refused.
fn tell_script<E: Sink>(err: &mut E, name: &str, why: ScriptRefusal)
    ensures { Writes (sink_use E.taken E.faults err.old err.new) (Text name.now ∷ script_pieces why) }
{
    match why {
        ScriptRefusal::TooLong => tell_behind(err, name, ": script too long"),
        ScriptRefusal::Fault(fault, place) => tell_place(err, name, fault, place),
    }
}

/// Tells why what an order checks is refused.
fn tell_denial<E: Sink>(err: &mut E, order: &Order, why: Denial)
    ensures { Writes (sink_use E.taken E.faults err.old err.new) (refusal_pieces (files_of order.now) (refusal.Denied why)) }
{
    match why {
        Denial::Code(why) => {
            let name = operand_name(order, Operand::Script);
            tell_numbered(err, name, "code refused in probe ", u64::from(why.probe))
        }
        Denial::Account(error) => {
            let name = operand_name(order, Operand::Account);
            tell_fault(err, name, account_told(error))
        }
    }
}

/// Tells how the program is used.
pub fn tell_usage<E: Sink>(err: &mut E)
    ensures { Writes (sink_use E.taken E.faults err.old err.new) usage_pieces }
{
    let run = Piece::Text("usage: btreplay run [--serial] [--stats] [--json] SCRIPT RECORDING\n");
    let check = Piece::Text("       btreplay check SCRIPT RECORDING\n");
    let code = Piece::Text("       btreplay code SCRIPT RECORDING\n");
    let made = Piece::Text("       btreplay gen X N\n");
    let big = Piece::Text("       btreplay big X N\n");
    let account = Piece::Text("       btreplay account [--serial] SCRIPT RECORDING\n");
    let verify = Piece::Text("       btreplay verify SCRIPT RECORDING ACCOUNT\n");
    let vet = Piece::Text("       btreplay vet SCRIPT RECORDING");
    write_line(err, &[run, check, code, made, big, account, verify, vet]);
}

/// Tells that memory ran out.
pub fn tell_memory<E: Sink>(err: &mut E)
    ensures { Writes (sink_use E.taken E.faults err.old err.new) (Text (codes "out of memory") ∷ []) }
{
    write_line(err, &[Piece::Text("out of memory")]);
}

/// Tells a refusal of an order.
fn tell<E: Sink>(err: &mut E, order: &Order, refusal: Refusal)
    ensures { Writes (sink_use E.taken E.faults err.old err.new) (refusal_pieces (files_of order.now) refusal) }
{
    match refusal {
        Refusal::Usage => tell_usage(err),
        Refusal::Script(why) => tell_script(err, operand_name(order, Operand::Script), why),
        Refusal::Recording(why) => tell_recording(
            err,
            operand_name(order, Operand::Recording),
            why,
        ),
        Refusal::ReadFault(operand) => {
            tell_behind(err, operand_name(order, operand), ": read fault")
        }
        Refusal::WriteFault => write_line(err, &[Piece::Text("write fault")]),
        Refusal::Memory => tell_memory(err),
        Refusal::LongAccount => tell_behind(
            err,
            operand_name(order, Operand::Account),
            ": account too long",
        ),
        Refusal::Denied(why) => tell_denial(err, order, why),
    }
}

/// Tells why an order was refused, where it was.
pub fn tell_refusal<E: Sink>(err: &mut E, order: &Order, refusal: Option<Refusal>)
    ensures { TellsRefusal (files_of order.now) refusal (sink_use E.taken E.faults err.old err.new) }
{
    match refusal {
        None => (),
        Some(refusal) => tell(err, order, refusal),
    }
}
