// What is wrong with a format text.
ghost use Rattle.std.specs.Prelude.{◌≡◌};

use bt_core::memory::Memory as NoMemory;
use std::fmt;
use thiserror::Error;

/// Why a format text has no layout: the first rule that it breaks, in the order of its lines. Lines
/// are counted from 1.
#[derive(Clone, Copy, Error)]
pub enum FormatError {
    /// Line 1 is not `name:` and a name of letters, digits and `_`.
    #[error("F1 no name")]
    NoName,
    /// Line 2 is not `ID:` and a decimal number from 0 to 65,535.
    #[error("F2 bad id")]
    BadId,
    /// Line 3 is not `format:`, or a later line is no field line where one should stand.
    #[error("F3 bad line {0}")]
    BadField(u32),
    /// The field of this line ends after 4,096 bytes.
    #[error("F4 overlong line {0}")]
    Overlong(u32),
    /// The field of this line has the name of an earlier one.
    #[error("F5 same name line {0}")]
    SameName(u32),
    /// Memory ran out.
    #[error("out of memory")]
    Memory(NoMemory),
}

// Tests show such an error by its text, so that no second function tells its parts.
impl fmt::Debug for FormatError {
    fn fmt<W: fmt::Write>(&self, f: &mut fmt::Formatter<W>) -> fmt::Result {
        fmt::Display::fmt(self, f)
    }
}

impl From<NoMemory> for FormatError {
    ghost use Rattle.std.specs.Prelude.{◌≡◌};
    ghost use Rattle.event_layout.specs.declared.error.FormatError.TheVariants.{Memory};

    ghost from_gives = { λ m e. e ≡ Memory m };

    fn from(error: NoMemory) -> FormatError {
        FormatError::Memory(error)
    }
}
