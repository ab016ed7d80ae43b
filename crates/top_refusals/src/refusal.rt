// Why a call is refused.
ghost use Rattle.std.specs.Prelude.{◌≡◌};
ghost use Rattle.top_refusals.specs.Refusals.{status_of, recording_refusal, read_refusal};

use account_format::error::AccountError;
use bpf_check::check::CodeFault;
use bt_core::memory::Memory;
use bt_core::place::Place;
use bt_io::shelf::ShelfError;
use expr_types::fault::Rule;
use recordings::error::RecordingError;

/// A file that the words name.
#[derive(Clone, Copy)]
pub enum Operand {
    Script,
    Recording,
    Account,
}

/// What is wrong with a script: the first fault of its text, of its tokens, of the points of its probes, or
/// of its types; or its first body that is too large.
#[derive(Clone, Copy)]
pub enum ScriptFault {
    /// X1: no token begins with this byte, or it does not fit the token that it stands in.
    BadCharacter,
    /// X2: the string does not end in its line.
    OpenString,
    /// X3: the comment does not end.
    OpenComment,
    /// X4: the number is above 2^64 - 1.
    NumberTooLarge,
    /// X5: the backslash begins no escape.
    BadEscape,
    /// X6: the string has more than 1,024 bytes after escapes.
    StringTooLong,
    /// P1: no script goes on with this token, or none ends where the text does.
    Syntax,
    /// P2: with this token more than 64 brackets and operators are open.
    TooDeep,
    /// P3: the 65th probe begins here.
    TooManyProbes,
    /// A1: the tracepoint, which has no `*`, is that of none of the recording's formats.
    UnknownTracepoint,
    /// A2: the tracepoint with `*` matches none of the recording's formats.
    NoMatch,
    /// A3: the interval's number is 0, or its period is 0 or above 2^63 - 1 nanoseconds.
    BadPeriod,
    /// A4: with this point there are more than 100,000 ticks.
    TooManyTicks,
    /// A5: with this point there are more than 4,096 bodies.
    TooManyAttached,
    /// Y1 to Y12: the rule of types that is broken here, the first in walk order over the bodies.
    Types(Rule),
    /// K1: the frame of a body has so many bytes, more than 512.
    FrameTooLarge(u64),
    /// K2: the code of a body has so many slots, more than 4,096.
    CodeTooLarge(u64),
}

/// Why a script is refused.
#[derive(Clone, Copy)]
pub enum ScriptRefusal {
    /// It has more bytes than it may have.
    TooLong,
    /// The text is no script, or none for this recording: the first fault, and the place of its byte, token,
    /// point or part of a body. That of a text that breaks off is the end of the text, and that of a body that is
    /// too large the first token of its probe.
    Fault(ScriptFault, Place),
}

/// Why a recording is refused.
#[derive(Clone, Copy)]
pub enum RecordingRefusal {
    /// It has more bytes than it may have.
    TooLong,
    /// The bytes are no recording: the first check that they fail.
    Fault(RecordingError),
}

/// Why code is refused: the number of the probe, from 0 in the order of the script, of the first body whose program the
/// check refuses, and the fault of that program.
#[derive(Clone, Copy)]
pub struct CodeRefusal {
    pub probe: u32,
    pub fault: CodeFault,
}

/// Why what an order checks is refused.
#[derive(Clone, Copy)]
pub enum Denial {
    /// The code of a program is.
    Code(CodeRefusal),
    /// The account is: the first thing that is wrong with it.
    Account(AccountError),
}

/// Why a call is refused. Each has its exit status.
#[derive(Clone, Copy)]
pub enum Refusal {
    /// The words break the rule: status 1.
    Usage,
    /// The script is refused: status 2.
    Script(ScriptRefusal),
    /// The recording is refused: status 3.
    Recording(RecordingRefusal),
    /// The file could not be read: status 4.
    ReadFault(Operand),
    /// The output took less than the text: status 5.
    WriteFault,
    /// Memory ran out: status 6.
    Memory,
    /// The account has more bytes than it may have: status 7.
    LongAccount,
    /// What was checked is refused: status 7 of an account, and status 8 of the code of a program.
    Denied(Denial),
}

impl From<Memory> for Refusal {
    ghost use Rattle.std.specs.Prelude.{◌≡◌};
    ghost use Rattle.top_refusals.specs.declared.refusal.Refusal.TheVariants as refusal;

    ghost from_gives = { λ _ refused. refused ≡ refusal.Memory };

    fn from(_error: Memory) -> Refusal {
        Refusal::Memory
    }
}

/// The exit status of a refusal, or 0 for none.
pub fn status_of(refusal: Option<Refusal>) -> u8
    ensures { result ≡ status_of refusal }
{
    match refusal {
        None => 0,
        Some(Refusal::Usage) => 1,
        Some(Refusal::Script(_)) => 2,
        Some(Refusal::Recording(_)) => 3,
        Some(Refusal::ReadFault(_)) => 4,
        Some(Refusal::WriteFault) => 5,
        Some(Refusal::Memory) => 6,
        Some(Refusal::LongAccount) => 7,
        Some(Refusal::Denied(Denial::Account(_))) => 7,
        Some(Refusal::Denied(Denial::Code(_))) => 8,
    }
}

/// Why a file is not read.
pub fn read_refusal(operand: Operand, error: ShelfError) -> Refusal
    ensures { result ≡ read_refusal operand error }
{
    match (error, operand) {
        (ShelfError::Failed, operand) => Refusal::ReadFault(operand),
        (ShelfError::TooLong, Operand::Script) => Refusal::Script(ScriptRefusal::TooLong),
        (ShelfError::TooLong, Operand::Recording) => Refusal::Recording(RecordingRefusal::TooLong),
        (ShelfError::TooLong, Operand::Account) => Refusal::LongAccount,
        (ShelfError::Memory, _) => Refusal::Memory,
    }
}

/// Why the bytes of a recording are refused.
pub fn recording_refusal(error: RecordingError) -> Refusal
    ensures { result ≡ recording_refusal error }
{
    match error {
        RecordingError::Memory => Refusal::Memory,
        error => Refusal::Recording(RecordingRefusal::Fault(error)),
    }
}
