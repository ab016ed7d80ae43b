// Why a script has no programs.
use bt_core::memory::Memory;

/// What is too large for a body to have a program.
#[derive(Clone, Copy)]
pub enum SizeFault {
    /// The frame would have so many bytes, more than 512.
    FrameTooLarge(u64),
    /// The code would have so many slots, more than 4,096.
    CodeTooLarge(u64),
}

/// Why a script has no programs: the first body, by its place, that would be too large; or memory ran out.
#[derive(Clone, Copy)]
pub enum ProgramsError {
    TooLarge { body: u32, fault: SizeFault },
    Memory,
}

impl From<Memory> for ProgramsError {
    ghost use Rattle.std.specs.Prelude.{◌≡◌};
    ghost use Rattle.script_programs.specs.declared.error.ProgramsError.TheVariants.{Memory};

    ghost from_gives = { λ _ e. e ≡ Memory };

    fn from(_error: Memory) -> ProgramsError {
        ProgramsError::Memory
    }
}
