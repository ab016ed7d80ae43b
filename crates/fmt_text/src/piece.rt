// The pieces of a format, and what is wrong with a text that is none.
ghost use Rattle.std.specs.Prelude.{◌≡◌};

use bt_core::items::Items;
use bt_core::memory::{Memory as NoMemory, TryCopy};
use std::alloc::{AllocError, AllocFailed, Global};
use thiserror::Error;

/// A piece of a format: bytes that stand for themselves, or a conversion, which stands for a value.
pub enum Piece {
    /// A longest run of bytes, at least one. Each `%%` of the format is one `%` here.
    Literal(Items<u8>),
    /// A conversion.
    Conversion {
        /// Whether the text is left in its width: the flag `-`.
        left: bool,
        /// Whether zeros fill a number on the right of its width: the flag `0`.
        zero: bool,
        /// The least number of bytes of the text, from 1 to 255, or 0 where there is none.
        width: u32,
        /// The letter: one of `d`, `i`, `u`, `x`, `X`, `s` and `c`.
        letter: u8,
    },
}

// Written out, so that it is one call wherever such a value is let go.
impl Drop for Piece {
    fn drop(self) {
        match self {
            Piece::Literal(_)
            | Piece::Conversion {
                left: _,
                zero: _,
                width: _,
                letter: _,
            } => {}
        }
    }
}

impl TryCopy for Piece {
    fn try_copy(&self, alloc: Global) -> Result<Piece, NoMemory> {
        match self {
            Piece::Literal(bytes) => Ok(Piece::Literal(bytes.try_copy(alloc)?)),
            Piece::Conversion {
                left,
                zero,
                width,
                letter,
            } => Ok(Piece::Conversion {
                left: *left,
                zero: *zero,
                width: *width,
                letter: *letter,
            }),
        }
    }
}

/// Why a text is no format.
#[derive(Clone, Copy, Debug, Error)]
pub enum FormatFault {
    /// The `%` at this offset begins neither a conversion nor `%%`. It is the first such one.
    #[error("bad format at byte {0}")]
    BadAt(u64),
    /// Memory ran out.
    #[error("out of memory")]
    Memory(NoMemory),
}

impl From<NoMemory> for FormatFault {
    ghost use Rattle.std.specs.Prelude.{◌≡◌};
    ghost use Rattle.fmt_text.specs.declared.piece.FormatFault.TheVariants.{Memory};

    ghost from_gives = { λ m e. e ≡ Memory m };

    fn from(error: NoMemory) -> FormatFault {
        FormatFault::Memory(error)
    }
}
