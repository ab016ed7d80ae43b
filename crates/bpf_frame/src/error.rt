// Why a body has no code.
use bt_core::memory::Memory as NoMemory;

/// Why there is no frame or no code for a body: its frame would have so many bytes, or its code so many slots, where there may
/// be 512 and 4,096; or memory ran out. What a user reads of it is written where refusals are told.
#[derive(Clone, Copy, PartialEq, Eq, Debug)]
pub enum CodeError {
    FrameTooLarge(u64),
    CodeTooLarge(u64),
    Memory(NoMemory),
}

impl From<NoMemory> for CodeError {
    ghost use Rattle.std.specs.Prelude.{◌≡◌};
    ghost use Rattle.bpf_frame.specs.declared.error.CodeError.TheVariants.{Memory};

    ghost from_gives = { λ m e. e ≡ Memory m };

    fn from(error: NoMemory) -> CodeError {
        CodeError::Memory(error)
    }
}
