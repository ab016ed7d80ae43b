// Why tokens are refused.
ghost use Rattle.std.specs.Prelude.{◌≡◌};
ghost use Rattle.bt_grammar.specs.declared.error.ParseError.TheVariants.{Memory};

use thiserror::Error;

/// The first fault of a list of tokens, with the number of tokens before it, or want of memory.
#[derive(Clone, Copy, Debug, Error)]
pub enum ParseError {
    /// P1: no script goes on with this token, or none ends here where no token is left.
    #[error("syntax at token {0}")]
    Syntax(u32),
    /// P2: with this token more than 64 brackets and operators are open.
    #[error("too deep at token {0}")]
    TooDeep(u32),
    /// P3: the 65th probe begins here.
    #[error("too many probes at token {0}")]
    TooMany(u32),
    /// Memory ran out.
    #[error("out of memory")]
    Memory,
}

impl From<bt_core::memory::Memory> for ParseError {
    ghost from_gives = { λ _ e. e ≡ Memory };

    fn from(_error: bt_core::memory::Memory) -> ParseError {
        ParseError::Memory
    }
}
