// Folding of bodies.
ghost use Rattle.std.specs.Prelude.{◌≡◌, IfOk, map, nat_eq, suc};
ghost use Rattle.ir_fold.specs.Folded.{BettersBlock, BlockVaries, AllBetter, BlocksVary, IsFoldOf, finishes, block_ends, flag_at, threaded_exit};

use crate::branches::settle;
use crate::instrs::fold_instrs;
use crate::through::through;
use bt_core::ending::Ending;
use bt_core::items::Items;
use bt_core::memory::Memory;
use ir_code::blocks::{Block, Blocks, Exit};
use ir_code::probe::IrProbe;
use std::alloc::Global;

/// Whether a block does nothing but end a run.
fn block_ends(block: &Block) -> bool
    ensures { result ≡ block_ends block.now }
{
    block.instrs.len() == 0 && finishes(block.exit)
}

fn finishes(exit: Exit) -> bool
    ensures { result ≡ finishes exit }
{
    match exit {
        Exit::End(Ending::End) => true,
        _ => false,
    }
}

/// Which blocks do nothing but end a run.
fn end_flags(alloc: Global, blocks: &[Block]) -> Result<Items<bool>, Memory>
    ensures { IfOk result (λ flags. flags ≡ map block_ends blocks.now) }
{
    let mut flags = Items::new(alloc);
    for block in blocks {
        flags.push(block_ends(block))?;
    }
    Ok(flags)
}

/// The flag of a block.
fn flag_at(flags: &[bool], to: usize) -> bool
    ensures { result ≡ flag_at flags.now to }
{
    match flags.get(to) {
        None => false,
        Some(flag) => *flag,
    }
}

/// Whether a block has the number before: its code stands right behind that of the block that has the number.
fn stands_behind(number: usize, block: usize) -> bool
    ensures { result ≡ nat_eq (suc block) number }
{
    number > 0 && block == number - 1
}

/// An exit of the block that has a number: where it goes to the end of a run it ends it, but where that stands right behind.
fn threaded_exit(flags: &[bool], number: usize, exit: Exit) -> Exit
    ensures { result ≡ threaded_exit flags.now number exit }
{
    match exit {
        Exit::Goto(to) => {
            if !stands_behind(number, to) && flag_at(flags, to) {
                Exit::End(Ending::End)
            } else {
                Exit::Goto(to)
            }
        }
        other => other,
    }
}

/// The block that has a number without operators and branches on literals, which does the same.
fn fold_block(alloc: Global, flags: &[bool], number: usize, block: Block) -> Result<Block, Memory>
    ensures better { IfOk result (λ folded. BettersBlock flags.now block folded) }
    ensures varies { IfOk result (λ folded. BlockVaries folded) }
{
    let Block {
        stack,
        instrs,
        exit,
        depth,
    } = block;
    let instrs = fold_instrs(alloc, instrs)?;
    let folded = Block {
        stack,
        instrs,
        exit: threaded_exit(flags, number, exit),
        depth,
    };
    Ok(settle(alloc, folded))
}

/// Blocks that do the same, number by number.
fn fold_blocks(alloc: Global, blocks: Items<Block>) -> Result<Items<Block>, Memory>
    ensures better { IfOk result (λ folded. AllBetter (map block_ends blocks) blocks folded) }
    ensures varies { IfOk result (λ folded. BlocksVary folded) }
{
    let flags = end_flags(alloc, blocks.as_slice())?;
    let mut folded = Items::new(alloc);
    for block in blocks.into_vec() {
        let number = folded.len();
        folded.push(fold_block(alloc, flags.as_slice(), number, block)?)?;
    }
    Ok(folded)
}

/// Folds the literals of a body, block by block.
fn fold_literals(alloc: Global, probe: IrProbe) -> Result<IrProbe, Memory>
    ensures { IfOk result (λ folded. IsFoldOf probe folded) }
{
    let IrProbe {
        blocks,
        variables,
        maps,
        formats,
        frame_need,
        code_need,
    } = probe;
    let Blocks { list } = blocks;
    let list = fold_blocks(alloc, list)?;
    Ok(IrProbe {
        blocks: Blocks { list },
        variables,
        maps,
        formats,
        frame_need,
        code_need,
    })
}

/// Folds the literals of a body, then lets each block branch itself whose last instruction puts what the next block does nothing
/// but test, and then each branch go past the blocks that this left without instructions.
///
/// The run of what it answers asks the same objects for the same, reply by reply, and ends as before, under every context, payload,
/// actor and number of actors. It has no operator whose operands are all literals, and no branch that tests one. The blocks keep
/// their numbers, and the probe its variables, maps, formats and both sums. After [`Memory`] the probe is dropped.
pub fn fold(alloc: Global, probe: IrProbe) -> Result<IrProbe, Memory>
    ensures { IfOk result (λ folded. IsFoldOf probe folded) }
{
    let folded = fold_literals(alloc, probe)?;
    let tested = through(alloc, folded)?;
    let short = through(alloc, tested)?;
    Ok(short)
}
