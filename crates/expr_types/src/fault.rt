// Faults of types.
use bt_core::memory::Memory;
use bt_core::place::Place;

/// A rule of types that a script breaks. What a user reads of it is written where refusals are told.
#[derive(Clone, Copy, PartialEq, Eq, Debug)]
pub enum Rule {
    /// The event has no field of this name.
    UnknownField,
    /// The field is of no kind that a script reads.
    FieldNotReadable,
    /// The map was decided to hold another kind.
    OtherKind,
    /// The key has more than four parts, or the map was decided to have other keys.
    OtherKeys,
    /// The variable was not assigned before.
    NotSet,
    /// A value of another type is needed, or another number.
    WrongType,
    /// The format is none, or its arguments are others.
    BadFormat,
    /// The bounds of a linear histogram are none.
    BadBounds,
    /// A histogram is read in an expression.
    AggregationRead,
    /// The body has no event.
    NoEvent,
    /// The 33rd map is mentioned.
    TooManyMaps,
    /// `break` or `continue` stands outside of a loop.
    NoLoop,
}

/// A rule and the place at which it is broken.
#[derive(Clone, Copy, PartialEq, Eq, Debug)]
pub struct Fault {
    pub rule: Rule,
    pub place: Place,
}

/// Why a script has no types: its first fault in walk order, or want of memory.
#[derive(Clone, Copy, PartialEq, Eq, Debug)]
pub enum TypeError {
    Broken(Fault),
    Memory,
}

impl From<Memory> for TypeError {
    ghost use Rattle.std.specs.Prelude.{◌≡◌};
    ghost use Rattle.expr_types.specs.declared.fault.TypeError.TheVariants.{Memory as NoMemory};

    ghost from_gives = { λ _ e. e ≡ NoMemory };

    fn from(_error: Memory) -> TypeError {
        TypeError::Memory
    }
}
