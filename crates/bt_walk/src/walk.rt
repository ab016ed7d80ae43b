// The walk of statements through a port.
ghost use Rattle.std.specs.Prelude.{◌≡◌, ◌≤◌, ◌<◌, IfOk, None};
ghost use Rattle.walk_meaning.specs.Exprs.{number_does};
ghost use Rattle.walk_meaning.specs.Stmts.{stmt_does, block_does, turn, turns, while_true};
ghost use Rattle.bt_walk.specs.Flows.{leaves};
ghost use Rattle.bt_walk.specs.Walked.{Walked};
ghost use Rattle.walk_meaning.specs.Served.{IsServed, Fits, StmtFits, BlockFits, scene_in};
ghost use Rattle.typed_tree.specs.Parts.{num_parts};
ghost use Rattle.typed_tree.specs.declared.stmt.TypedStmt.TheVariants.{If as IfStmt};

use crate::flow::{is_next, leaves};
use crate::stmt::{
    clear, cut, delete_at, gather, jump, print, printf, set_map, set_variable, step, update_map,
    update_variable, zero,
};
use crate::value::number;
use bt_core::items::Items;
use bt_core::memory::Memory;
use bt_core::port::Port;
use map_ops::values::holds;
use std::alloc::Global;
use typed_tree::expr::NumExpr;
use typed_tree::stmt::{TypedBlock, TypedStmt};
use walk_meaning::flow::{Flow, Frame};
use walk_meaning::view::View;

/// Walks a statement.
#[cycle(walk)]
pub fn walk_stmt<P: Port>(
    alloc: Global,
    view: &View<'_>,
    s: &TypedStmt,
    frame: &mut Frame,
    port: &mut P,
) -> Result<Flow, Memory>
    requires served { IsServed view.now (P.fixed port.old).setting }
    requires fits { StmtFits view.now s.now }
    ensures walked { Walked (stmt_does s.now) (scene_in view.now) frame.old (P.steps port.old) (P.steps port.new) result frame.new }
    ensures kept { P.fixed port.new ≡ P.fixed port.old }
    ensures turns { frame.new.turns ≤ frame.old.turns }
{
    match s {
        TypedStmt::SetVar { var, value } => set_variable(alloc, view, *var, value, frame, port),
        TypedStmt::SetMap { map, keys, value } => {
            set_map(alloc, view, *map, keys.as_slice(), value, frame, port)
        }
        TypedStmt::UpdateVar { var, op, value } => {
            update_variable(alloc, view, *var, *op, value, frame, port)
        }
        TypedStmt::UpdateMap {
            map,
            keys,
            op,
            value,
        } => update_map(alloc, view, *map, keys.as_slice(), *op, value, frame, port),
        TypedStmt::Gather {
            map,
            keys,
            kind,
            number,
        } => gather(
            alloc,
            view,
            *map,
            keys.as_slice(),
            *kind,
            number,
            frame,
            port,
        ),
        TypedStmt::Step(value) => step(alloc, view, value, frame, port),
        TypedStmt::Printf { format, values } => {
            printf(alloc, view, *format, values.as_slice(), frame, port)
        }
        TypedStmt::Print { map, top, div } => print(alloc, view, *map, *top, *div, port),
        TypedStmt::Clear(map) => clear(alloc, view, *map, port),
        TypedStmt::Zero(map) => zero(alloc, view, *map, port),
        TypedStmt::Delete { map, keys } => {
            delete_at(alloc, view, *map, keys.as_slice(), frame, port)
        }
        TypedStmt::Jump(to) => jump(alloc, *to, port),
        TypedStmt::If { arms, otherwise } => walk_if(alloc, view, arms, otherwise, frame, port),
        TypedStmt::While {
            condition,
            block,
            line,
        } => walk_while(alloc, view, *line, block, condition, frame, port),
        TypedStmt::Unroll { turns, block, line } => {
            walk_turns(alloc, view, *turns, *line, block, frame, port)
        }
    }
}

/// Walks the first of the arms whose test holds, and where none does the block of `else`.
#[cycle(walk)]
fn walk_if<P: Port>(
    alloc: Global,
    view: &View<'_>,
    arms: &Items<(NumExpr, TypedBlock)>,
    otherwise: &Option<TypedBlock>,
    frame: &mut Frame,
    port: &mut P,
) -> Result<Flow, Memory>
    requires served { IsServed view.now (P.fixed port.old).setting }
    requires fits { StmtFits view.now (IfStmt arms.now otherwise.now) }
    ensures walked { Walked (stmt_does (IfStmt arms.now otherwise.now)) (scene_in view.now) frame.old (P.steps port.old) (P.steps port.new) result frame.new }
    ensures kept { P.fixed port.new ≡ P.fixed port.old }
    ensures turns { frame.new.turns ≤ frame.old.turns }
{
    for arm in arms.as_slice() {
        let test = number(alloc, view, &arm.0, frame, port)?;
        if holds(test) {
            return walk_block(alloc, view, &arm.1, frame, port);
        }
    }
    match otherwise {
        Some(block) => walk_block(alloc, view, block, frame, port),
        None => Ok(Flow::Next),
    }
}

/// Walks statements one after another, as long as each leads to the next.
#[cycle(walk)]
pub fn walk_block<P: Port>(
    alloc: Global,
    view: &View<'_>,
    block: &TypedBlock,
    frame: &mut Frame,
    port: &mut P,
) -> Result<Flow, Memory>
    requires served { IsServed view.now (P.fixed port.old).setting }
    requires fits { BlockFits view.now block.now }
    ensures walked { Walked (block_does block.now) (scene_in view.now) frame.old (P.steps port.old) (P.steps port.new) result frame.new }
    ensures kept { P.fixed port.new ≡ P.fixed port.old }
    ensures turns { frame.new.turns ≤ frame.old.turns }
{
    for stmt in block.stmts.as_slice() {
        let flow = walk_stmt(alloc, view, stmt, frame, port)?;
        if is_next(flow) {} else {
            return Ok(flow);
        }
    }
    Ok(Flow::Next)
}

/// Walks one turn of a loop, where one is left.
#[cycle(walk)]
fn walk_turn<P: Port>(
    alloc: Global,
    view: &View<'_>,
    line: u32,
    block: &TypedBlock,
    frame: &mut Frame,
    port: &mut P,
) -> Result<Flow, Memory>
    requires served { IsServed view.now (P.fixed port.old).setting }
    requires fits { BlockFits view.now block.now }
    ensures walked { Walked (turn line (block_does block.now)) (scene_in view.now) frame.old (P.steps port.old) (P.steps port.new) result frame.new }
    ensures kept { P.fixed port.new ≡ P.fixed port.old }
    ensures turns { frame.new.turns ≤ frame.old.turns }
    ensures fewer { IfOk result (λ flow. leaves flow ≡ None → frame.new.turns < frame.old.turns) }
{
    if frame.turns == 0 {
        cut(alloc, line, port)
    } else {
        frame.turns -= 1;
        walk_block(alloc, view, block, frame, port)
    }
}

/// Walks a loop of so many turns.
#[cycle(walk)]
fn walk_turns<P: Port>(
    alloc: Global,
    view: &View<'_>,
    count: u32,
    line: u32,
    block: &TypedBlock,
    frame: &mut Frame,
    port: &mut P,
) -> Result<Flow, Memory>
    requires served { IsServed view.now (P.fixed port.old).setting }
    requires fits { BlockFits view.now block.now }
    ensures walked { Walked (turns count line (block_does block.now)) (scene_in view.now) frame.old (P.steps port.old) (P.steps port.new) result frame.new }
    ensures kept { P.fixed port.new ≡ P.fixed port.old }
    ensures turns { frame.new.turns ≤ frame.old.turns }
{
    for made in 0..count {
        let flow = walk_turn(alloc, view, line, block, frame, port)?;
        match leaves(flow) {
            Some(left) => return Ok(left),
            None => {}
        }
    }
    Ok(Flow::Next)
}

/// Walks a loop as long as its test holds.
#[cycle(walk)]
fn walk_while<P: Port>(
    alloc: Global,
    view: &View<'_>,
    line: u32,
    block: &TypedBlock,
    test: &NumExpr,
    frame: &mut Frame,
    port: &mut P,
) -> Result<Flow, Memory>
    requires served { IsServed view.now (P.fixed port.old).setting }
    requires fits { BlockFits view.now block.now }
    requires test { Fits view.now (num_parts test.now) }
    ensures walked { Walked (while_true line (number_does test.now) (block_does block.now))
        (scene_in view.now) frame.old (P.steps port.old) (P.steps port.new) result frame.new }
    ensures kept { P.fixed port.new ≡ P.fixed port.old }
    ensures turns { frame.new.turns ≤ frame.old.turns }
{
    loop {
        let value = number(alloc, view, test, frame, port)?;
        if holds(value) {
            let flow = walk_turn(alloc, view, line, block, frame, port)?;
            match leaves(flow) {
                Some(left) => return Ok(left),
                None => {}
            }
        } else {
            return Ok(Flow::Next);
        }
    }
}
