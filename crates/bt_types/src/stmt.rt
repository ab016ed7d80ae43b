// Statements: their first fault, or what they are as typed ones.
ghost use Rattle.std.specs.Prelude.{◌≡◌, ◌≢◌, ◌≤◌, true, Err, map, not, option_map, IfOk, unsigned_abs};
ghost use Rattle.expr_types.specs.declared.fault.Rule.TheVariants.{NoLoop, WrongType};
ghost use Rattle.expr_types.specs.declared.fault.TypeError.TheVariants.{Memory as NoMemory};
ghost use Rattle.expr_types.specs.Judge.{Refuses};
ghost use Rattle.expr_types.specs.Rules.{are_turns, breaks};
ghost use Rattle.expr_types.specs.Walk.{of_expr, of_step, of_target};
ghost use Rattle.typed_tree.specs.declared.stmt.TypedStmt.TheVariants.{Jump as JumpStmt};
ghost use Rattle.typed_tree.specs.Parts.{joined, arm_parts, otherwise_parts, stmt_parts, block_parts};
ghost use Rattle.bt_types.specs.Told.{told_in_turn, assign_told, arm_told, otherwise_told, value_told, while_told, unroll_told, of_block, of_stmt, of_stmt_kind};
ghost use Rattle.bt_types.specs.Done.{Does, DoesIn};

use crate::assign::{
    check_condition, check_set_map, check_set_var, check_update_map, check_update_var,
};
use crate::calls::{check_clear, check_delete, check_delete_key, check_print, check_zero};
use crate::gather::check_gather;
use crate::printf::check_printf;
use bt_ast::expr::{Expr, IncDec, Target};
use bt_ast::stmt::{Block, Stmt, StmtKind};
use bt_core::beside::beside;
use bt_core::items::Items;
use bt_core::operator::BinOp;
use bt_core::place::Place;
use expr_types::expr::check_step;
use expr_types::fault::{Rule, TypeError};
use expr_types::known::Known;
use expr_types::rules::broken;
use std::alloc::Global;
use typed_tree::expr::NumExpr;
use typed_tree::stmt::{Jump, TypedBlock, TypedStmt};

/// `target = value`, or `target op= value`.
fn check_assign(
    alloc: Global,
    known: &mut Known,
    target: &Target,
    op: Option<BinOp>,
    value: &Expr,
    place: Place,
) -> Result<TypedStmt, TypeError>
    ensures { DoesIn (assign_told op (of_target target.now) (of_expr value.now) place) stmt_parts known.old known.new result }
{
    match (target, op) {
        (Target::Var(var), None) => check_set_var(alloc, known, var, value),
        (Target::Map(map), None) => check_set_map(alloc, known, map, value),
        (Target::Var(var), Some(op)) => check_update_var(alloc, known, var, op, value, place),
        (Target::Map(map), Some(op)) => check_update_map(alloc, known, map, op, value, place),
    }
}

/// `++` or `--` as a statement.
fn check_step_stmt(alloc: Global, known: &mut Known, step: &IncDec) -> Result<TypedStmt, TypeError>
    ensures { DoesIn (value_told (of_step step.now)) stmt_parts known.old known.new result }
{
    let value = check_step(alloc, known, step)?;
    Ok(TypedStmt::Step(value))
}

/// `break` or `continue`.
///
/// # Errors
///
/// [`Rule::NoLoop`] at the place, outside of a loop.
fn jump_in_loop(inside: bool, jump: Jump, place: Place) -> Result<TypedStmt, TypeError>
    ensures refuses { Refuses (breaks (not inside) NoLoop) place result }
    ensures made { IfOk result (λ s. s ≡ JumpStmt jump) }
    ensures not_memory { result ≢ Err NoMemory }
{
    if inside {
        Ok(TypedStmt::Jump(jump))
    } else {
        Err(broken(Rule::NoLoop, place))
    }
}

/// The number of turns of `unroll`, which is from 1 to 100.
///
/// # Errors
///
/// [`Rule::WrongType`] at the place.
fn check_turns(turns: i64, place: Place) -> Result<u32, TypeError>
    ensures refuses { Refuses (breaks (not (are_turns turns)) WrongType) place result }
    ensures same { IfOk result (λ n. (n ≡ unsigned_abs turns) × (1 ≤ n) × (n ≤ 100)) }
    ensures not_memory { result ≢ Err NoMemory }
{
    if turns < 1 || turns > 100 {
        return Err(broken(Rule::WrongType, place));
    }
    Ok(turns as u32)
}

/// Several statements.
#[cycle(stmt)]
fn check_stmts(
    alloc: Global,
    known: &mut Known,
    inside: bool,
    stmts: &[Stmt],
) -> Result<Items<TypedStmt>, TypeError>
    ensures { Does (told_in_turn (map (λ s. of_stmt s inside) stmts.now)) (λ all. joined (map (λ s. stmt_parts s inside) all)) known.old known.new result }
{
    let mut all = Items::new(alloc);
    for stmt in stmts {
        let typed = check_stmt(alloc, known, inside, stmt)?;
        all.push(typed)?;
    }
    Ok(all)
}

/// A block, inside a loop or outside.
#[cycle(stmt)]
pub(crate) fn check_block(
    alloc: Global,
    known: &mut Known,
    inside: bool,
    block: &Block,
) -> Result<TypedBlock, TypeError>
    ensures { Does (of_block block.now inside) (λ b. block_parts b inside) known.old known.new result }
{
    let stmts = check_stmts(alloc, known, inside, block.stmts.as_slice())?;
    Ok(TypedBlock { stmts })
}

/// A block and the condition under which it is run.
#[cycle(stmt)]
fn check_arm(
    alloc: Global,
    known: &mut Known,
    inside: bool,
    block: &Block,
    condition: &Expr,
) -> Result<(NumExpr, TypedBlock), TypeError>
    ensures { Does (arm_told (condition.now, of_block block.now inside)) (λ arm. arm_parts (arm.0, block_parts arm.1 inside)) known.old known.new result }
{
    let condition = check_condition(alloc, known, condition)?;
    let block = check_block(alloc, known, inside, block);
    beside(condition, block)
}

/// The block of `else`, where there is one.
#[cycle(stmt)]
fn check_otherwise(
    alloc: Global,
    known: &mut Known,
    inside: bool,
    block: &Option<Block>,
) -> Result<Option<TypedBlock>, TypeError>
    ensures { Does (otherwise_told (option_map (λ b. of_block b inside) block.now)) (λ b. otherwise_parts (option_map (λ b. block_parts b inside) b))
        known.old known.new result }
{
    match block {
        None => Ok(None),
        Some(block) => {
            let block = check_block(alloc, known, inside, block)?;
            Ok(Some(block))
        }
    }
}

/// A loop whose word stands here.
#[cycle(stmt)]
fn check_while(
    alloc: Global,
    known: &mut Known,
    block: &Block,
    condition: &Expr,
    place: Place,
) -> Result<TypedStmt, TypeError>
    ensures { DoesIn (while_told place condition.now (of_block block.now true)) stmt_parts known.old known.new result }
{
    let condition = check_condition(alloc, known, condition)?;
    let block = check_block(alloc, known, true, block);
    let (condition, block) = beside(condition, block)?;
    Ok(TypedStmt::While {
        condition,
        block,
        line: place.line,
    })
}

/// A loop of so many turns, whose word stands here: the block, and then the number.
#[cycle(stmt)]
fn check_unroll(
    alloc: Global,
    known: &mut Known,
    block: &Block,
    turns: i64,
    place: Place,
) -> Result<TypedStmt, TypeError>
    ensures { DoesIn (unroll_told place turns (of_block block.now true)) stmt_parts known.old known.new result }
{
    let block = check_block(alloc, known, true, block)?;
    let turns = check_turns(turns, place)?;
    Ok(TypedStmt::Unroll {
        turns,
        block,
        line: place.line,
    })
}

/// A statement.
#[cycle(stmt)]
fn check_stmt(
    alloc: Global,
    known: &mut Known,
    inside: bool,
    stmt: &Stmt,
) -> Result<TypedStmt, TypeError>
    ensures { Does (of_stmt stmt.now inside) (λ s. stmt_parts s inside) known.old known.new result }
{
    check_kind(alloc, known, inside, &stmt.kind, stmt.place)
}

/// A statement that begins at a place.
#[cycle(stmt)]
fn check_kind(
    alloc: Global,
    known: &mut Known,
    inside: bool,
    kind: &StmtKind,
    place: Place,
) -> Result<TypedStmt, TypeError>
    ensures { Does (of_stmt_kind kind.now inside place) (λ s. stmt_parts s inside) known.old known.new result }
{
    match kind {
        StmtKind::SetAgg {
            map,
            agg,
            agg_place,
        } => check_gather(alloc, known, map, agg, *agg_place),
        StmtKind::Assign { target, op, value } => {
            check_assign(alloc, known, target, *op, value, place)
        }
        StmtKind::Step(step) => check_step_stmt(alloc, known, step),
        StmtKind::Printf {
            format,
            format_place,
            values,
        } => check_printf(alloc, known, format, *format_place, values.as_slice()),
        StmtKind::Print { map, top, div } => {
            check_print(alloc, known, map, top.unwrap_or(0), div.unwrap_or(1), place)
        }
        StmtKind::Clear(map) => check_clear(alloc, known, map),
        StmtKind::Zero(map) => check_zero(alloc, known, map),
        StmtKind::Delete(map) => check_delete(alloc, known, map, place),
        StmtKind::DeleteKey { map, key } => check_delete_key(alloc, known, map, key, place),
        StmtKind::Exit => Ok(TypedStmt::Jump(Jump::Exit)),
        StmtKind::Break => jump_in_loop(inside, Jump::Break, place),
        StmtKind::Continue => jump_in_loop(inside, Jump::Continue, place),
        StmtKind::Return => Ok(TypedStmt::Jump(Jump::Return)),
        StmtKind::If { arms, otherwise } => {
            let mut all = Items::new(alloc);
            for arm in arms.as_slice() {
                let typed = check_arm(alloc, known, inside, &arm.1, &arm.0)?;
                all.push(typed)?;
            }
            let otherwise = check_otherwise(alloc, known, inside, otherwise);
            let (arms, otherwise) = beside(all, otherwise)?;
            Ok(TypedStmt::If { arms, otherwise })
        }
        StmtKind::While { condition, block } => check_while(alloc, known, block, condition, place),
        StmtKind::Unroll { turns, block } => check_unroll(alloc, known, block, *turns, place),
    }
}
