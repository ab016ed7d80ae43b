// Lowering of statements: a function puts what a statement does before what is open.
ghost use Rattle.std.specs.Prelude.{◌≡◌, OnOk, IfOk, [], length};
ghost use Rattle.typed_tree.specs.declared.stmt.TypedStmt.TheVariants as stmts;
ghost use Rattle.bt_lower.specs.Code.{with_cut};
ghost use Rattle.bt_lower.specs.Lowers.{LowersSingle, LowersStatement, LowersStatements, LowersInto, LowersElse, LowersIf, LowersOneArm};

use crate::code::{Code, Ways};
use crate::simple::{
    clear, delete_at, gather, jump, print, printf, set_map, set_variable, step, update_map,
    update_variable, zero,
};
use crate::value::lower_test;
use bt_core::ending::Ending;
use bt_core::memory::Memory;
use bt_core::value::Value;
use ir_code::blocks::Exit;
use ir_code::instr::Instr;
use std::alloc::Global;
use typed_tree::expr::NumExpr;
use typed_tree::stmt::{TypedBlock, TypedStmt};

/// Lowers a statement. `break` and `continue` go to the blocks that `way` names.
#[cycle(stmt)]
pub fn lower_stmt(alloc: Global, s: &TypedStmt, way: Ways, code: &mut Code) -> Result<(), Memory>
    ensures { OnOk result (LowersStatement s.now way code.old code.new) }
{
    match s {
        TypedStmt::SetVar { var, value } => set_variable(alloc, *var, value, code),
        TypedStmt::SetMap { map, keys, value } => {
            set_map(alloc, *map, keys.as_slice(), value, code)
        }
        TypedStmt::UpdateVar { var, op, value } => update_variable(alloc, *var, *op, value, code),
        TypedStmt::UpdateMap {
            map,
            keys,
            op,
            value,
        } => update_map(alloc, *map, keys.as_slice(), *op, value, code),
        TypedStmt::Gather {
            map,
            keys,
            kind,
            number,
        } => gather(alloc, *map, keys.as_slice(), *kind, number, code),
        TypedStmt::Step(value) => step(alloc, value, code),
        TypedStmt::Printf { format, values } => printf(alloc, *format, values.as_slice(), code),
        TypedStmt::Print { map, top, div } => print(alloc, *map, *top, *div, code),
        TypedStmt::Clear(map) => clear(alloc, *map, code),
        TypedStmt::Zero(map) => zero(alloc, *map, code),
        TypedStmt::Delete { map, keys } => delete_at(alloc, *map, keys.as_slice(), code),
        TypedStmt::Jump(to) => jump(alloc, *to, way, code),
        TypedStmt::If { .. } => lower_if(alloc, s, way, code),
        TypedStmt::While {
            condition,
            block,
            line,
        } => lower_while(alloc, block, condition, *line, code),
        TypedStmt::Unroll { turns, block, line } => {
            lower_unroll(alloc, *turns, block, *line, code)
        }
    }
}

/// Lowers the statements of a block from the last one to the first.
#[cycle(stmt)]
pub fn lower_block(
    alloc: Global,
    block: &TypedBlock,
    way: Ways,
    code: &mut Code,
) -> Result<(), Memory>
    ensures { OnOk result (LowersStatements block.now way code.old code.new) }
{
    let stmts = block.stmts.as_slice();
    let mut left = stmts.len();
    while left > 0 {
        left -= 1;
        lower_stmt(alloc, &stmts[left], way, code)?;
    }
    Ok(())
}

/// A block of its own that does the statements of a block and goes on to a block.
#[cycle(stmt)]
pub fn lower_into(
    alloc: Global,
    block: &TypedBlock,
    after: usize,
    way: Ways,
    code: &mut Code,
) -> Result<usize, Memory>
    ensures { IfOk result (λ number. LowersInto block.now after way code.old code.new number) }
{
    code.begin(alloc, Exit::Goto(after), &[])?;
    lower_block(alloc, block, way, code)?;
    code.close(alloc)
}

/// Lowers an `if`: the blocks of its arms are made from the last one to the first, and what is open goes on to the first.
#[cycle(stmt)]
fn lower_if(alloc: Global, s: &TypedStmt, way: Ways, code: &mut Code) -> Result<(), Memory>
    ensures { OnOk result (LowersIf s.now way code.old code.new) }
{
    if let TypedStmt::If { arms, otherwise } = s {
        let arms = arms.as_slice();
        let mut left = arms.len();
        if left == 0 {
            return lower_only_else(alloc, otherwise, way, code);
        }
        let after = code.close(alloc)?;
        let mut next = lower_else(alloc, otherwise, after, way, code)?;
        while left > 0 {
            left -= 1;
            let arm = &arms[left];
            next = lower_arm(alloc, &arm.1, &arm.0, next, after, way, code)?;
        }
        code.begin(alloc, Exit::Goto(next), &[])?;
    }
    Ok(())
}

/// Lowers an `if` that has no arm, and so does what its `else` does.
#[cycle(stmt)]
fn lower_only_else(
    alloc: Global,
    otherwise: &Option<TypedBlock>,
    way: Ways,
    code: &mut Code,
) -> Result<(), Memory>
    ensures { OnOk result (LowersStatement (stmts.If [] otherwise.now) way code.old code.new) }
{
    match otherwise {
        Some(block) => lower_block(alloc, block, way, code),
        None => Ok(()),
    }
}

/// The blocks of an arm: where its test does not hold, it goes on to the block `next`.
#[cycle(stmt)]
fn lower_arm(
    alloc: Global,
    block: &TypedBlock,
    condition: &NumExpr,
    next: usize,
    after: usize,
    way: Ways,
    code: &mut Code,
) -> Result<usize, Memory>
    ensures { IfOk result (λ number. LowersOneArm (condition.now, block.now) next after way code.old code.new number) }
{
    let first = lower_into(alloc, block, after, way, code)?;
    lower_test(alloc, condition, first, next, code)?;
    code.close(alloc)
}

/// The block of an `else`, or, where there is none, the block that follows.
#[cycle(stmt)]
fn lower_else(
    alloc: Global,
    otherwise: &Option<TypedBlock>,
    after: usize,
    way: Ways,
    code: &mut Code,
) -> Result<usize, Memory>
    ensures { IfOk result (λ number. LowersElse otherwise.now after way code.old code.new number) }
{
    match otherwise {
        Some(block) => lower_into(alloc, block, after, way, code),
        None => Ok(after),
    }
}

/// Lowers `while`: the head has the test, and each turn of the block begins at the gate and ends at a block that goes back to the head.
#[cycle(stmt)]
fn lower_while(
    alloc: Global,
    block: &TypedBlock,
    condition: &NumExpr,
    line: u32,
    code: &mut Code,
) -> Result<(), Memory>
    ensures { OnOk result (LowersSingle (stmts.While condition.now block.now line) code.old code.new) }
{
    let leave = code.close(alloc)?;
    let cut = cut_block(alloc, line, code)?;
    let again = code.reserve(alloc)?;
    let turn = lower_into(alloc, block, again, Ways { leave, again }, code)?;
    code.gate(alloc, turn, cut);
    let first = code.close(alloc)?;
    lower_test(alloc, condition, first, leave, code)?;
    let head = code.close(alloc)?;
    code.patch(alloc, again, head)
}

/// Lowers `unroll`: the count lies on the stack. The head takes 1 off it where turns are left, and each turn begins at the gate.
#[cycle(stmt)]
fn lower_unroll(
    alloc: Global,
    turns: u32,
    block: &TypedBlock,
    line: u32,
    code: &mut Code,
) -> Result<(), Memory>
    ensures { OnOk result (LowersSingle (stmts.Unroll turns block.now line) code.old code.new) }
{
    code.push(alloc, Instr::Pop)?;
    let leave = code.close(alloc)?;
    let cut = cut_block(alloc, line, code)?;
    let again = code.reserve(alloc)?;
    let turn = lower_into(alloc, block, again, Ways { leave, again }, code)?;
    code.gate(alloc, turn, cut);
    let gate = code.close(alloc)?;
    let exit = Exit::Count { block: gate, leave };
    code.begin(alloc, exit, &[])?;
    let head = code.close(alloc)?;
    code.patch(alloc, again, head)?;
    code.push(alloc, Instr::Put(Value::Int(i64::from(turns))))
}

/// The block that a loop goes to where no turn is left.
fn cut_block(alloc: Global, line: u32, code: &mut Code) -> Result<usize, Memory>
    ensures made { OnOk result (code.new ≡ with_cut line code.old) }
    ensures number { IfOk result (λ number. number ≡ length code.old.blocks) }
{
    code.begin(alloc, Exit::End(Ending::Cut), &[])?;
    code.push(alloc, Instr::Cut(line))?;
    let number = code.close(alloc)?;
    Ok(number)
}
