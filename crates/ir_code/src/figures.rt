// The figures of instructions and exits.
ghost use Rattle.std.specs.Prelude.{◌≡◌};
ghost use Rattle.ir_code.specs.Figures.{size_of, exit_slots};

use crate::blocks::Exit;
use bt_core::map::Shape;

/// The bytes of a value of a type in the frame.
pub fn size_of(shape: Shape) -> u64
    ensures { result ≡ size_of shape }
{
    match shape {
        Shape::Int => 8,
        Shape::Str => 64,
    }
}

/// The slots of an exit's code.
pub fn exit_slots(exit: Exit) -> u64
    ensures { result ≡ exit_slots exit }
{
    match exit {
        Exit::Goto(_) => 1,
        Exit::Branch { .. } => 3,
        Exit::Count { .. } => 5,
        Exit::Gate { .. } => 5,
        Exit::Again(_) => 1,
        Exit::End(_) => 1,
    }
}
