// Lowering of simple statements: a function puts what a statement does before what is open.
ghost use Rattle.std.specs.Prelude.{OnOk};
ghost use Rattle.typed_tree.specs.declared.stmt.TypedStmt.TheVariants as stmts;
ghost use Rattle.bt_lower.specs.Lowers.{LowersSingle, LowersStatement};

use crate::code::{Code, Ways};
use crate::value::{lower_number, lower_value, lower_values, shapes_of};
use bt_core::ending::Ending;
use bt_core::map::{AggKind, MapId};
use bt_core::memory::Memory;
use bt_core::operator::BinOp;
use ir_code::blocks::Exit;
use ir_code::instr::Instr;
use std::alloc::Global;
use typed_tree::expr::{AnyExpr, NumExpr};
use typed_tree::stmt::Jump;

/// Lowers `$var = value`.
pub fn set_variable(alloc: Global, var: u32, value: &AnyExpr, code: &mut Code) -> Result<(), Memory>
    ensures { OnOk result (LowersSingle (stmts.SetVar var value.now) code.old code.new) }
{
    let shape = value.shape();
    code.push(alloc, Instr::Store { var, shape })?;
    lower_value(alloc, value, code)
}

/// Lowers `map[keys] = value`: the key is evaluated first, and lies below the value.
pub fn set_map(
    alloc: Global,
    map: MapId,
    keys: &[AnyExpr],
    value: &AnyExpr,
    code: &mut Code,
) -> Result<(), Memory>
    ensures { OnOk result (LowersSingle (stmts.SetMap map keys.now value.now) code.old code.new) }
{
    let key = shapes_of(alloc, keys)?;
    let shape = value.shape();
    code.push(alloc, Instr::Set { map, key, shape })?;
    lower_value(alloc, value, code)?;
    lower_values(alloc, keys, code)
}

/// Lowers `$var op= value`.
pub fn update_variable(
    alloc: Global,
    var: u32,
    op: BinOp,
    value: &NumExpr,
    code: &mut Code,
) -> Result<(), Memory>
    ensures { OnOk result (LowersSingle (stmts.UpdateVar var op value.now) code.old code.new) }
{
    code.push(alloc, Instr::UpdateVar { var, op })?;
    lower_number(alloc, value, code)
}

/// Lowers `map[keys] op= value`.
pub fn update_map(
    alloc: Global,
    map: MapId,
    keys: &[AnyExpr],
    op: BinOp,
    value: &NumExpr,
    code: &mut Code,
) -> Result<(), Memory>
    ensures { OnOk result (LowersSingle (stmts.UpdateMap map keys.now op value.now) code.old code.new) }
{
    let key = shapes_of(alloc, keys)?;
    code.push(alloc, Instr::Update { map, key, op })?;
    lower_number(alloc, value, code)?;
    lower_values(alloc, keys, code)
}

/// Lowers an aggregation: `count()` has no number.
pub fn gather(
    alloc: Global,
    map: MapId,
    keys: &[AnyExpr],
    kind: AggKind,
    number: &Option<NumExpr>,
    code: &mut Code,
) -> Result<(), Memory>
    ensures { OnOk result (LowersSingle (stmts.Gather map keys.now kind number.now) code.old code.new) }
{
    let key = shapes_of(alloc, keys)?;
    match number {
        Some(value) => {
            code.push(alloc, Instr::Add { map, key })?;
            lower_number(alloc, value, code)?;
            lower_values(alloc, keys, code)
        }
        None => {
            code.push(alloc, Instr::Count { map, key })?;
            lower_values(alloc, keys, code)
        }
    }
}

/// Lowers an expression whose value is let go.
pub fn step(alloc: Global, value: &NumExpr, code: &mut Code) -> Result<(), Memory>
    ensures { OnOk result (LowersSingle (stmts.Step value.now) code.old code.new) }
{
    code.push(alloc, Instr::Pop)?;
    lower_number(alloc, value, code)
}

/// Lowers `printf(format, values)`.
pub fn printf(alloc: Global, format: u32, values: &[AnyExpr], code: &mut Code) -> Result<(), Memory>
    ensures { OnOk result (LowersSingle (stmts.Printf format values.now) code.old code.new) }
{
    let shapes = shapes_of(alloc, values)?;
    code.push(alloc, Instr::Printf { format, shapes })?;
    lower_values(alloc, values, code)
}

/// Lowers `print(map, top, div)`.
pub fn print(alloc: Global, map: MapId, top: u64, div: i64, code: &mut Code) -> Result<(), Memory>
    ensures { OnOk result (LowersSingle (stmts.Print map top div) code.old code.new) }
{
    code.push(alloc, Instr::Print { map, top, div })
}

/// Lowers `clear(map)`.
pub fn clear(alloc: Global, map: MapId, code: &mut Code) -> Result<(), Memory>
    ensures { OnOk result (LowersSingle (stmts.Clear map) code.old code.new) }
{
    code.push(alloc, Instr::Clear(map))
}

/// Lowers `zero(map)`.
pub fn zero(alloc: Global, map: MapId, code: &mut Code) -> Result<(), Memory>
    ensures { OnOk result (LowersSingle (stmts.Zero map) code.old code.new) }
{
    code.push(alloc, Instr::Zero(map))
}

/// Lowers `delete(map[keys])`.
pub fn delete_at(alloc: Global, map: MapId, keys: &[AnyExpr], code: &mut Code) -> Result<(), Memory>
    ensures { OnOk result (LowersSingle (stmts.Delete map keys.now) code.old code.new) }
{
    let key = shapes_of(alloc, keys)?;
    code.push(alloc, Instr::Delete { map, key })?;
    lower_values(alloc, keys, code)
}

/// Lowers a statement that goes elsewhere. What was open is let go, since nothing comes to it.
pub fn jump(alloc: Global, jump: Jump, way: Ways, code: &mut Code) -> Result<(), Memory>
    ensures { OnOk result (LowersStatement (stmts.Jump jump) way code.old code.new) }
{
    match jump {
        Jump::Break => code.begin(alloc, Exit::Goto(way.leave), &[]),
        Jump::Continue => code.begin(alloc, Exit::Goto(way.again), &[]),
        Jump::Return => code.begin(alloc, Exit::End(Ending::Return), &[]),
        Jump::Exit => {
            code.begin(alloc, Exit::End(Ending::Exit), &[])?;
            code.push(alloc, Instr::Stop)
        }
    }
}
