// What is wrong with an account: with its bytes, and with what they tell.
use bt_core::memory::Memory as NoMemory;
use thiserror::Error;

/// Why bytes are not read as an account.
#[derive(Clone, Copy, PartialEq, Eq, Debug, Error)]
pub enum AccountFault {
    /// Bytes from this offset on, counted from 0, have not the form of an account.
    #[error("N1 bad account at byte {0}")]
    BadAccount(u64),
    /// Memory ran out.
    #[error("out of memory")]
    Memory(NoMemory),
}

impl From<NoMemory> for AccountFault {
    ghost use Rattle.std.specs.Prelude.{◌≡◌};
    ghost use Rattle.account_format.specs.declared.error.AccountFault.TheVariants.{Memory};

    ghost from_gives = { λ m e. e ≡ Memory m };

    fn from(error: NoMemory) -> AccountFault {
        AccountFault::Memory(error)
    }
}

/// Why an account is not true.
#[derive(Clone, Copy, Debug, Error)]
pub enum AccountError {
    /// Bytes from this offset on, counted from 0, have not the form of an account.
    #[error("N1 bad account at byte {0}")]
    BadAccount(u64),
    /// No run makes this step, counted from 0, after those before it.
    #[error("N2 wrong step {0}")]
    WrongStep(u64),
    /// A run can make these steps, but goes on after them.
    #[error("N3 unfinished")]
    Unfinished,
    /// The steps print another text, from this byte of the text on, counted from 0.
    #[error("N4 wrong text at byte {0}")]
    WrongText(u64),
    /// Memory ran out.
    #[error("out of memory")]
    Memory(NoMemory),
}

impl From<NoMemory> for AccountError {
    ghost use Rattle.std.specs.Prelude.{◌≡◌};
    ghost use Rattle.account_format.specs.declared.error.AccountError.TheVariants.{Memory};

    ghost from_gives = { λ m e. e ≡ Memory m };

    fn from(error: NoMemory) -> AccountError {
        AccountError::Memory(error)
    }
}

impl From<AccountFault> for AccountError {
    ghost use Rattle.std.specs.Prelude.{◌≡◌};
    ghost use Rattle.account_format.specs.Faults.{error_of};

    ghost from_gives = { λ fault e. e ≡ error_of fault };

    fn from(fault: AccountFault) -> AccountError {
        match fault {
            AccountFault::BadAccount(offset) => AccountError::BadAccount(offset),
            AccountFault::Memory(memory) => AccountError::Memory(memory),
        }
    }
}
