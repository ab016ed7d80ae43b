// Why a point of a script is attached to nothing that may be.
ghost use Rattle.std.specs.Prelude.{◌≡◌};

use bt_core::memory::Memory as NoMemory;
use bt_core::place::Place;
use thiserror::Error;

/// The first point of a script, in its order, that breaks a rule, with the first rule that it breaks.
#[derive(Clone, Copy, PartialEq, Eq, Debug, Error)]
pub enum AttachError {
    /// A tracepoint without `*` matches no format.
    #[error("A1 unknown tracepoint")]
    UnknownTracepoint(Place),
    /// A tracepoint with `*` matches no format.
    #[error("A2 no match")]
    NoMatch(Place),
    /// The number of an interval is 0, or its period is 0 or above 2^63 - 1 nanoseconds.
    #[error("A3 bad period")]
    BadPeriod(Place),
    /// There are more than 100,000 ticks up to and with this point.
    #[error("A4 too many ticks")]
    TooManyTicks(Place),
    /// There are more than 4,096 bodies up to and with this point.
    #[error("A5 too many attachments")]
    TooManyAttached(Place),
    /// Memory ran out.
    #[error("out of memory")]
    Memory,
}

impl From<NoMemory> for AttachError {
    ghost use Rattle.std.specs.Prelude.{◌≡◌};
    ghost use Rattle.bt_attach.specs.declared.error.AttachError.TheVariants.{Memory};

    ghost from_gives = { λ _ e. e ≡ Memory };

    fn from(_error: NoMemory) -> AttachError {
        AttachError::Memory
    }
}
