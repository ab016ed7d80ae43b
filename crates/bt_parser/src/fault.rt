// Why a part of a script is not read.
use bt_core::memory::Memory;
use std::alloc::AllocError;

/// Why a part is not read: there is no memory, or no part goes on with the token at which the cursor
/// stands.
#[derive(Clone, Copy, Drop)]
pub enum Fault {
    OutOfMemory(Memory),
    Syntax,
}

impl From<Memory> for Fault {
    ghost use Rattle.std.specs.Prelude.{◌≡◌};
    ghost use Rattle.bt_parser.specs.declared.fault.Fault.TheVariants.{OutOfMemory};

    ghost from_gives = { λ m e. e ≡ OutOfMemory m };

    fn from(error: Memory) -> Fault {
        Fault::OutOfMemory(error)
    }
}

impl From<AllocError> for Fault {
    ghost use Rattle.std.specs.Prelude.{◌≡◌};
    ghost use Rattle.bt_core.specs.Want.{out_of_memory};
    ghost use Rattle.bt_parser.specs.declared.fault.Fault.TheVariants.{OutOfMemory};

    ghost from_gives = { λ _ e. e ≡ OutOfMemory out_of_memory };

    fn from(error: AllocError) -> Fault {
        Fault::OutOfMemory(error.into())
    }
}
