// Lowering of bodies.
ghost use Rattle.std.specs.Prelude.{◌≡◌, OnOk, IfOk};
ghost use Rattle.bt_lower.specs.Code.{nothing};
ghost use Rattle.bt_lower.specs.Bodies.{LowersGuarded, LowersTree};

use crate::code::{Code, Ways};
use crate::stmt::{lower_block, lower_into};
use crate::value::lower_test;
use bt_core::ending::Ending;
use bt_core::items::Items;
use bt_core::memory::Memory;
use ir_code::blocks::{Block, Exit};
use std::alloc::Global;
use typed_tree::body::TypedTree;
use typed_tree::expr::NumExpr;
use typed_tree::stmt::TypedBlock;

/// The code that ends a run.
fn nothing(alloc: Global) -> Code
    ensures { result ≡ nothing }
{
    Code {
        blocks: Items::new(alloc),
        stack: Items::new(alloc),
        instrs: Items::new(alloc),
        exit: Exit::End(Ending::End),
        depth: 0,
    }
}

/// Lowers a predicate, where there is one, and the statements that it guards.
fn lower_guarded(
    alloc: Global,
    predicate: &Option<NumExpr>,
    block: &TypedBlock,
    way: Ways,
    code: &mut Code,
) -> Result<(), Memory>
    ensures { OnOk result (LowersGuarded predicate.now block.now way code.old code.new) }
{
    match predicate {
        None => lower_block(alloc, block, way, code),
        Some(e) => {
            let after = code.close(alloc)?;
            let first = lower_into(alloc, block, after, way, code)?;
            lower_test(alloc, e, first, after, code)?;
            let head = code.close(alloc)?;
            code.begin(alloc, Exit::Goto(head), &[])
        }
    }
}

/// Lowers a body to code, where there is none yet.
fn lower_whole(alloc: Global, tree: &TypedTree, code: &mut Code) -> Result<(), Memory>
    ensures { OnOk result (code.old ≡ nothing → LowersTree tree.now code.new.blocks) }
{
    let end = code.close(alloc)?;
    let way = Ways {
        leave: end,
        again: end,
    };
    lower_guarded(alloc, &tree.predicate, &tree.block, way, code)?;
    code.close(alloc)?;
    Ok(())
}

/// The blocks of a predicate and a block, of which the last one comes first in a run.
pub fn lower_tree(alloc: Global, tree: &TypedTree) -> Result<Items<Block>, Memory>
    ensures { IfOk result (λ blocks. LowersTree tree.now blocks) }
{
    let mut code = nothing(alloc);
    lower_whole(alloc, tree, &mut code)?;
    Ok(code.blocks)
}
