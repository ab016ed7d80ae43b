// Branches on literals.
ghost use Rattle.std.specs.Prelude.{◌≡◌, cond, List, Bool};
ghost use Rattle.map_ops.specs.Values.{number_of, holds};
ghost use Rattle.ir_fold.specs.Folded.{AllVary, BettersBlock, BlockVaries};

use crate::instrs::{literal_before, take_off};
use bt_core::value::Value;
use ir_code::blocks::{Block, Exit};
use map_ops::values::{holds, number_of};
use std::alloc::Global;

/// Where a branch on a literal goes.
pub fn chosen(value: &Value, first: usize, second: usize) -> usize
    ensures { result ≡ cond (holds (number_of value.now)) first second }
{
    if holds(number_of(value)) {
        first
    } else {
        second
    }
}

/// A block that tests no literal and does the same.
pub fn settle(alloc: Global, block: Block) -> Block
    ensures better { (flags : List Bool) → BettersBlock flags block result }
    ensures varies { AllVary block.instrs → BlockVaries result }
{
    let Block {
        stack,
        mut instrs,
        exit,
        depth,
    } = block;
    if let Exit::Branch { first, second } = exit {
        if let Some(value) = literal_before(&instrs, 1) {
            take_off(alloc, &mut instrs, 1);
            let to = chosen(&value, first, second);
            return Block {
                stack,
                instrs,
                exit: Exit::Goto(to),
                depth,
            };
        }
    }
    Block {
        stack,
        instrs,
        exit,
        depth,
    }
}
