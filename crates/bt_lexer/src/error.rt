// Why a text has no tokens.
ghost use Rattle.std.specs.Prelude.{◌≡◌};
ghost use Rattle.bt_lexer.specs.declared.error.LexError.TheVariants.{Memory};

use std::alloc::AllocFailed;
use thiserror::Error;

/// The first lexical fault of a text, with its offset in bytes, or want of memory.
#[derive(Clone, Copy, Debug, Error)]
pub enum LexError {
    /// X1: no token begins with this byte, or it does not fit the token that it stands in.
    #[error("bad character at byte {0}")]
    BadChar(u64),
    /// X2: the string that begins here does not end in its line.
    #[error("open string at byte {0}")]
    OpenString(u64),
    /// X3: the comment that begins here does not end.
    #[error("open comment at byte {0}")]
    OpenComment(u64),
    /// X4: the number that begins here is above 2^64 - 1.
    #[error("number too large at byte {0}")]
    NumberTooLarge(u64),
    /// X5: the backslash that stands here begins no escape.
    #[error("bad escape at byte {0}")]
    BadEscape(u64),
    /// X6: the string that begins here has more than 1,024 bytes after escapes.
    #[error("string too long at byte {0}")]
    StringTooLong(u64),
    /// Memory ran out.
    #[error("out of memory")]
    Memory,
}

impl From<bt_core::memory::Memory> for LexError {
    ghost from_gives = { λ _ e. e ≡ Memory };

    fn from(_error: bt_core::memory::Memory) -> LexError {
        LexError::Memory
    }
}

impl<T: Drop> From<AllocFailed<T>> for LexError {
    ghost from_gives = { λ _ e. e ≡ Memory };

    fn from(_error: AllocFailed<T>) -> LexError {
        LexError::Memory
    }
}
