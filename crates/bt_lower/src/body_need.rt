// What statements and bodies need.
ghost use Rattle.std.specs.Prelude.{◌≡◌, ◌+◌, IfOk, OnErr};
ghost use Rattle.typed_tree.specs.Parts.{made_of};
ghost use Rattle.ir_code.specs.Figures.{by_shape};
ghost use Rattle.bt_lower.specs.Needs.{need, more, greater, set_map_need, update_map_need, taking_need, stmt_need, block_need, tree_else_need, gather_need, number_need, value_need, values_need, tree_need, IsTooMuch};

use crate::need::{
    Need, figures, greater, greater_and, jump_need, more, number_need, predicate_need, sizes_of,
    sum, under, value_need, values_need,
};
use bt_core::map::Shape;
use bt_core::memory::Memory;
use typed_tree::body::TypedTree;
use typed_tree::expr::{AnyExpr, NumExpr};
use typed_tree::stmt::{TypedBlock, TypedStmt};

/// The slots of an assignment to a variable.
fn store_slots(shape: Shape) -> u64
    ensures { result ≡ by_shape shape 8 24 }
{
    match shape {
        Shape::Int => 8,
        Shape::Str => 24,
    }
}

/// So many slots more behind.
fn and_code(n: Need, code: u64) -> Result<Need, Memory>
    ensures need { IfOk result (λ all. all ≡ need n.frame (n.code + code)) }
    ensures beyond { OnErr result (IsTooMuch (need n.frame (n.code + code))) }
{
    let code = sum(n.code, code)?;
    Ok(figures(n.frame, code))
}

/// What an aggregation needs.
fn gather_need(keys: &[AnyExpr], number: &Option<NumExpr>) -> Result<Need, Memory>
    ensures need { IfOk result (λ n. n ≡ gather_need (values_need keys.now) number.now) }
    ensures beyond { OnErr result (IsTooMuch (gather_need (values_need keys.now) number.now)) }
{
    let keys = values_need(keys)?;
    match number {
        None => more(24, keys.need),
        Some(e) => {
            let number = number_need(e)?;
            let all = under(keys, number.frame, 24)?;
            and_code(all, number.code)
        }
    }
}

/// What an assignment to a map needs.
fn set_map_need(keys: &[AnyExpr], value: &AnyExpr) -> Result<Need, Memory>
    ensures need { IfOk result (λ n. n ≡ set_map_need (values_need keys.now) (value_need value.now).need) }
    ensures beyond { OnErr result (IsTooMuch (set_map_need (values_need keys.now) (value_need value.now).need)) }
{
    let keys = values_need(keys)?;
    let value = value_need(value)?;
    let all = under(keys, value.need.frame, 24)?;
    and_code(all, value.need.code)
}

/// What `op=` on a map needs.
fn update_map_need(keys: &[AnyExpr], value: &NumExpr) -> Result<Need, Memory>
    ensures need { IfOk result (λ n. n ≡ update_map_need (values_need keys.now) (number_need value.now)) }
    ensures beyond { OnErr result (IsTooMuch (update_map_need (values_need keys.now) (number_need value.now))) }
{
    let keys = values_need(keys)?;
    let value = number_need(value)?;
    let all = under(keys, value.frame.max(16), 40)?;
    and_code(all, value.code)
}

/// What a statement needs that takes values alone.
fn taking_need(values: &[AnyExpr]) -> Result<Need, Memory>
    ensures need { IfOk result (λ n. n ≡ taking_need (values_need values.now)) }
    ensures beyond { OnErr result (IsTooMuch (taking_need (values_need values.now))) }
{
    let values = values_need(values)?;
    more(16, values.need)
}

/// What an assignment to a variable needs.
fn set_variable_need(value: &AnyExpr) -> Result<Need, Memory>
    ensures need { IfOk result (λ n. n ≡ more (by_shape (made_of value.now).shape 8 24) (value_need value.now).need) }
    ensures beyond { OnErr result (IsTooMuch (more (by_shape (made_of value.now).shape 8 24) (value_need value.now).need)) }
{
    let valued = value_need(value)?;
    more(store_slots(value.shape()), valued.need)
}

/// What `op=` on a variable needs.
fn update_variable_need(value: &NumExpr) -> Result<Need, Memory>
    ensures need { IfOk result (λ n. n ≡ more 16 (number_need value.now)) }
    ensures beyond { OnErr result (IsTooMuch (more 16 (number_need value.now))) }
{
    let value = number_need(value)?;
    more(16, value)
}

/// What a statement needs.
#[cycle(body_need)]
pub fn stmt_need(s: &TypedStmt) -> Result<Need, Memory>
    ensures need { IfOk result (λ n. n ≡ stmt_need s.now) }
    ensures beyond { OnErr result (IsTooMuch (stmt_need s.now)) }
{
    match s {
        TypedStmt::SetVar { value, .. } => set_variable_need(value),
        TypedStmt::SetMap { keys, value, .. } => set_map_need(keys.as_slice(), value),
        TypedStmt::UpdateVar { value, .. } => update_variable_need(value),
        TypedStmt::UpdateMap { keys, value, .. } => update_map_need(keys.as_slice(), value),
        TypedStmt::Gather { keys, number, .. } => gather_need(keys.as_slice(), number),
        TypedStmt::Step(value) => number_need(value),
        TypedStmt::Printf { values, .. } => taking_need(values.as_slice()),
        TypedStmt::Print { .. } => Ok(figures(0, 16)),
        TypedStmt::Clear(_) => Ok(figures(0, 12)),
        TypedStmt::Zero(_) => Ok(figures(0, 12)),
        TypedStmt::Delete { keys, .. } => taking_need(keys.as_slice()),
        TypedStmt::Jump(to) => Ok(jump_need(*to)),
        TypedStmt::If { arms, otherwise } => {
            let arms = arms.as_slice();
            let mut all = figures(0, 0);
            let mut left = arms.len();
            while left > 0 {
                left -= 1;
                let one = tested_need(8, &arms[left].1, &arms[left].0)?;
                all = greater(one, all)?;
            }
            let otherwise = otherwise_need(otherwise)?;
            Ok(greater(all, otherwise)?)
        }
        TypedStmt::While {
            condition,
            block,
            ..
        } => tested_need(24, block, condition),
        TypedStmt::Unroll { block, .. } => unroll_need(block),
    }
}

/// What a block needs.
#[cycle(body_need)]
pub fn block_need(block: &TypedBlock) -> Result<Need, Memory>
    ensures need { IfOk result (λ n. n ≡ block_need block.now) }
    ensures beyond { OnErr result (IsTooMuch (block_need block.now)) }
{
    let stmts = block.stmts.as_slice();
    let mut all = figures(0, 0);
    let mut left = stmts.len();
    while left > 0 {
        left -= 1;
        let one = stmt_need(&stmts[left])?;
        all = greater(one, all)?;
    }
    Ok(all)
}

/// What a block and the test before it need, and so many slots more.
#[cycle(body_need)]
fn tested_need(slots: u64, block: &TypedBlock, test: &NumExpr) -> Result<Need, Memory>
    ensures need { IfOk result (λ n. n ≡ more slots (greater (number_need test.now) (block_need block.now))) }
    ensures beyond { OnErr result (IsTooMuch (more slots (greater (number_need test.now) (block_need block.now)))) }
{
    let test = number_need(test)?;
    let block = block_need(block)?;
    greater_and(slots, test, block)
}

/// What `unroll` needs.
#[cycle(body_need)]
fn unroll_need(block: &TypedBlock) -> Result<Need, Memory>
    ensures need { IfOk result (λ n. n ≡ need (8 + (block_need block.now).frame) (32 + (block_need block.now).code)) }
    ensures beyond { OnErr result (IsTooMuch (need (8 + (block_need block.now).frame) (32 + (block_need block.now).code))) }
{
    let block = block_need(block)?;
    let frame = sum(8, block.frame)?;
    let code = sum(32, block.code)?;
    Ok(figures(frame, code))
}

/// What the block of an `else` needs, where there is one.
#[cycle(body_need)]
fn otherwise_need(otherwise: &Option<TypedBlock>) -> Result<Need, Memory>
    ensures need { IfOk result (λ n. n ≡ tree_else_need otherwise.now) }
    ensures beyond { OnErr result (IsTooMuch (tree_else_need otherwise.now)) }
{
    match otherwise {
        None => Ok(figures(0, 0)),
        Some(block) => block_need(block),
    }
}

/// What a whole body needs: 24 bytes are its own, and each variable has its bytes.
pub fn tree_need(tree: &TypedTree) -> Result<Need, Memory>
    ensures need { IfOk result (λ n. n ≡ tree_need tree.now) }
    ensures beyond { OnErr result (IsTooMuch (tree_need tree.now)) }
{
    let variables = sizes_of(tree.variables.as_slice())?;
    let predicate = predicate_need(&tree.predicate)?;
    let block = block_need(&tree.block)?;
    let guarded = greater(predicate, block)?;
    let own = sum(24, variables)?;
    let frame = sum(own, guarded.frame)?;
    let code = sum(32, guarded.code)?;
    Ok(figures(frame, code))
}
