// Blocks of instructions.
ghost use Rattle.std.specs.Prelude.{◌≡◌, IsTrue};
ghost use Rattle.ir_code.specs.Ways.{lead_forward};

use crate::instr::Instr;
use bt_core::ending::Ending;
use bt_core::items::Items;
use bt_core::map::Shape;

/// How a block ends.
#[derive(Clone, Copy)]
pub enum Exit {
    /// Goes on to a block.
    Goto(usize),
    /// Takes a number, and goes on to the first block where it counts as true, and otherwise to the second.
    Branch { first: usize, second: usize },
    /// Goes on to a block where the number at the end of the stack is above 0, and takes 1 off it; else it leaves.
    Count { block: usize, leave: usize },
    /// Takes a turn and goes on to a loop's block, or, where none is left, to the cut.
    Gate { block: usize, cut: usize },
    /// Ends a loop's turn: goes back to the loop's head.
    Again(usize),
    /// Ends the run.
    End(Ending),
}

/// Instructions and an exit. `depth` is the number of loops round the block, and `stack` has the types of the values on the
/// stack at its start, the first one put first.
#[derive(Drop)]
pub struct Block {
    pub stack: Items<Shape>,
    pub instrs: Items<Instr>,
    pub exit: Exit,
    pub depth: usize,
}

/// The blocks of a body, of which the last one comes first in a run.
///
/// Each exit leads to a block that is there: to one of a smaller number that lies in as many loops or fewer, or through a gate
/// into a loop's block, one loop deeper. Only what ends a loop's turn leads to a greater number, and it leads out of the loop.
#[derive(Drop)]
pub struct Blocks {
    pub list: Items<Block>,
    /// Each exit leads where it may.
    pub ghost led: { IsTrue (lead_forward list) },
}
