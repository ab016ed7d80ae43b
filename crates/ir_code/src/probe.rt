// A body in typed instructions.
ghost use Rattle.std.specs.Prelude.{◌+◌, ◌≤◌, IsTrue};
ghost use Rattle.ir_code.specs.Figures.{blocks_slots};
ghost use Rattle.ir_code.specs.Typing.{are_typed};

use crate::blocks::Blocks;
use bt_core::items::Items;
use bt_core::map::{MapDecl, Shape};

/// A body in typed instructions: its blocks, the types of its variables in the order of their first assignments, the script's
/// maps, the types of the arguments of the script's formats, and how many bytes of frame and slots of code the body may take.
#[derive(Drop)]
pub struct IrProbe {
    pub blocks: Blocks,
    pub variables: Items<Shape>,
    pub maps: Items<MapDecl>,
    pub formats: Items<Items<Shape>>,
    pub frame_need: u64,
    pub code_need: u64,
    /// Each instruction finds its operands on the stack, of their types, and what it names; and the bytes in use while it runs,
    /// the body's own 24 and those of the variables are at most the frame's.
    pub ghost typed: { IsTrue (are_typed (record { variables = variables; maps = maps; formats = formats; frame = frame_need }) blocks.list) },
    /// The figures of all instructions and exits, and four more slots for what comes before them, add up to at most the code's.
    pub ghost covered: { blocks_slots blocks.list + 4 ≤ code_need },
}
