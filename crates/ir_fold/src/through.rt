// Ways through blocks without instructions.
ghost use Rattle.std.specs.Prelude.{◌≡◌, ◌⊎◌, IfOk, map, List};
ghost use Rattle.ir_code.specs.declared.blocks.Block.{Block as IrBlock};
ghost use Rattle.ir_fold.specs.Folded.{BlockVaries, BlocksVary, IsFoldOf, bare_in, bare_at, way_on, ways_on, ends_in_truth, Shortens, AllShorten, Tests};

use crate::branches::{chosen, settle};
use crate::instrs::{literal_before, take_off};
use bt_core::items::Items;
use bt_core::memory::Memory;
use ir_code::blocks::{Block, Blocks, Exit};
use ir_code::instr::Instr;
use ir_code::probe::IrProbe;
use std::alloc::Global;

/// The exit of a block without instructions.
fn bare(block: &Block) -> Option<Exit>
    ensures { result ≡ bare_in block.now }
{
    if block.instrs.len() == 0 {
        Some(block.exit)
    } else {
        None
    }
}

/// The exits of the blocks without instructions, by the blocks' numbers.
fn bare_exits(alloc: Global, blocks: &[Block]) -> Result<Items<Option<Exit>>, Memory>
    ensures { IfOk result (λ bares. bares ≡ map bare_in blocks.now) }
{
    let mut bares = Items::new(alloc);
    for block in blocks {
        bares.push(bare(block))?;
    }
    Ok(bares)
}

/// The exit of the block of a number, where that has no instructions.
fn bare_at(bares: &[Option<Exit>], to: usize) -> Option<Exit>
    ensures { result ≡ bare_at bares.now to }
{
    match bares.get(to) {
        None => None,
        Some(exit) => *exit,
    }
}

/// Whether the last instruction makes a number its truth.
fn ends_in_truth(instrs: &Items<Instr>) -> bool
    ensures { result ≡ ends_in_truth instrs.now }
{
    if instrs.len() == 0 {
        return false;
    }
    match instrs.get(instrs.len() - 1) {
        Some(Instr::Truth) => true,
        _ => false,
    }
}

/// A block that branches itself, where its last instruction puts what is tested.
fn test_here(alloc: Global, block: Block, first: usize, second: usize) -> Block
    ensures tests { (result ≡ block) ⊎ Tests first second block result }
    ensures varies { BlockVaries block → BlockVaries result }
{
    let Block {
        stack,
        mut instrs,
        exit,
        depth,
    } = block;
    if let Some(value) = literal_before(&instrs, 1) {
        take_off(alloc, &mut instrs, 1);
        let to = chosen(&value, first, second);
        return Block {
            stack,
            instrs,
            exit: Exit::Goto(to),
            depth,
        };
    }
    if ends_in_truth(&instrs) {
        take_off(alloc, &mut instrs, 1);
        let branch = Block {
            stack,
            instrs,
            exit: Exit::Branch { first, second },
            depth,
        };
        return settle(alloc, branch);
    }
    Block {
        stack,
        instrs,
        exit,
        depth,
    }
}

/// Where a way leads that may go to a block that only goes on.
fn way_on(bares: &[Option<Exit>], to: usize) -> usize
    ensures { result ≡ way_on bares.now to }
{
    match bare_at(bares, to) {
        Some(Exit::Goto(next)) => next,
        _ => to,
    }
}

/// An exit of which no way of a branch goes to a block that only goes on.
fn ways_on(bares: &[Option<Exit>], exit: Exit) -> Exit
    ensures { result ≡ ways_on bares.now exit }
{
    match exit {
        Exit::Branch { first, second } => Exit::Branch {
            first: way_on(bares, first),
            second: way_on(bares, second),
        },
        other => other,
    }
}

/// A block that does the same and does not go to a block that only tests what its last instruction puts.
fn test_block(alloc: Global, bares: &[Option<Exit>], block: Block) -> Block
    ensures short { (bs : List IrBlock) → bares.now ≡ map bare_in bs → Shortens bs block result }
    ensures varies { BlockVaries block → BlockVaries result }
{
    if let Exit::Goto(to) = block.exit {
        if let Some(Exit::Branch { first, second }) = bare_at(bares, to) {
            return test_here(alloc, block, first, second);
        }
    }
    block
}

/// A block that does the same, where neither it nor its branch goes to a block that could be left out.
fn through_block(alloc: Global, bares: &[Option<Exit>], block: Block) -> Block
    ensures short { (bs : List IrBlock) → bares.now ≡ map bare_in bs → Shortens bs block result }
    ensures varies { BlockVaries block → BlockVaries result }
{
    let tested = test_block(alloc, bares, block);
    let Block {
        stack,
        instrs,
        exit,
        depth,
    } = tested;
    Block {
        stack,
        instrs,
        exit: ways_on(bares, exit),
        depth,
    }
}

/// Blocks that do the same, number by number.
fn through_blocks(alloc: Global, blocks: Items<Block>) -> Result<Items<Block>, Memory>
    ensures short { IfOk result (λ short. AllShorten blocks blocks short) }
    ensures varies { IfOk result (λ short. BlocksVary blocks → BlocksVary short) }
{
    let bares = bare_exits(alloc, blocks.as_slice())?;
    let mut short = Items::new(alloc);
    for block in blocks.into_vec() {
        short.push(through_block(alloc, bares.as_slice(), block))?;
    }
    Ok(short)
}

/// A body that does the same, in which no block goes to one that only tests what its last instruction puts.
pub fn through(alloc: Global, probe: IrProbe) -> Result<IrProbe, Memory>
    ensures { IfOk result (λ short. BlocksVary probe.blocks.list → IsFoldOf probe short) }
{
    let IrProbe {
        blocks,
        variables,
        maps,
        formats,
        frame_need,
        code_need,
    } = probe;
    let Blocks { list } = blocks;
    let list = through_blocks(alloc, list)?;
    Ok(IrProbe {
        blocks: Blocks { list },
        variables,
        maps,
        formats,
        frame_need,
        code_need,
    })
}
