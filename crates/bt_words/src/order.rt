// Orders: what words ask for.
ghost use Rattle.std.specs.Prelude.{◌≡◌};

use bt_core::memory::Memory as NoMemory;
use std::alloc::{AllocError, Global};
use std::marker::Model;
use thiserror::Error;

/// The name of a file. Contracts see its bytes.
#[derive(Drop)]
pub struct FileName {
    text: String,
}

impl Model for FileName {
    ghost use Rattle.std.specs.Prelude.{List, ℕ, string_bytes};

    ghost Value = { List ℕ };

    ghost view = { λ s. string_bytes s.text };
}

impl FileName {
    ghost use Rattle.std.specs.Prelude.{IfOk};

    /// The name that a text is.
    pub fn of(alloc: Global, text: &str) -> Result<FileName, AllocError>
        ensures { IfOk result (λ name. name ≡ text.now) }
    {
        Ok(FileName {
            text: String::from_str(alloc, text)?,
        })
    }

    /// Its text.
    pub fn as_str(&self) -> &str
        ensures { result.now ≡ self.now }
    {
        self.text.as_str()
    }
}

/// What words ask for: one of the eight commands, with what it takes.
pub enum Order {
    /// To run a script over a recording: on one thread, or on threads; with or without the number of
    /// instructions; and to write what it prints as JSON lines, or as text.
    Run {
        serial: bool,
        stats: bool,
        json: bool,
        script: FileName,
        recording: FileName,
    },
    /// To do all of a run up to the code.
    Check {
        script: FileName,
        recording: FileName,
    },
    /// To list the code.
    Code {
        script: FileName,
        recording: FileName,
    },
    /// To check the code.
    Vet {
        script: FileName,
        recording: FileName,
    },
    /// To run a script over a recording, on one thread or on threads, and to write an account of its steps.
    Account {
        serial: bool,
        script: FileName,
        recording: FileName,
    },
    /// To check an account.
    Verify {
        script: FileName,
        recording: FileName,
        account: FileName,
    },
    /// To make the recording of two numbers.
    Gen {
        x: u32,
        n: u32,
    },
    /// To run the built-in script over the recording of two numbers.
    Big {
        x: u32,
        n: u32,
    },
}

// Written out, so that it is one call wherever such a value is let go.
impl Drop for Order {
    fn drop(self) {
        match self {
            Order::Run {
                serial: _,
                stats: _,
                json: _,
                script: _,
                recording: _,
            }
            | Order::Check {
                script: _,
                recording: _,
            }
            | Order::Code {
                script: _,
                recording: _,
            }
            | Order::Vet {
                script: _,
                recording: _,
            }
            | Order::Account {
                serial: _,
                script: _,
                recording: _,
            }
            | Order::Verify {
                script: _,
                recording: _,
                account: _,
            }
            | Order::Gen { x: _, n: _ }
            | Order::Big { x: _, n: _ } => {}
        }
    }
}

/// Why words give no order.
#[derive(Clone, Copy, Debug, Error)]
pub enum WordsError {
    /// The words break the rule of the command line.
    #[error("usage")]
    Usage,
    /// Memory ran out.
    #[error("out of memory")]
    Memory,
}

impl From<AllocError> for WordsError {
    ghost use Rattle.std.specs.Prelude.{◌≡◌};
    ghost use Rattle.bt_words.specs.declared.order.WordsError.TheVariants.{Memory};

    ghost from_gives = { λ _ e. e ≡ Memory };

    fn from(_error: AllocError) -> WordsError {
        WordsError::Memory
    }
}

impl From<NoMemory> for WordsError {
    ghost use Rattle.std.specs.Prelude.{◌≡◌};
    ghost use Rattle.bt_words.specs.declared.order.WordsError.TheVariants.{Memory};

    ghost from_gives = { λ _ e. e ≡ Memory };

    fn from(_error: NoMemory) -> WordsError {
        WordsError::Memory
    }
}
