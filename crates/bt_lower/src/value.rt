// Lowering of expressions: a function puts what evaluates before what is open.
ghost use Rattle.std.specs.Prelude.{◌≡◌, ◌∷◌, [], OnOk, IfOk};
ghost use Rattle.bt_core.specs.declared.map.Shape.TheVariants as shapes;
ghost use Rattle.ir_code.specs.declared.blocks.Exit.TheVariants.{Branch};
ghost use Rattle.ir_code.specs.declared.instr.Instr.TheVariants as instrs;
ghost use Rattle.typed_tree.specs.Parts.{num_parts, str_parts, key_shapes};
ghost use Rattle.walk_meaning.specs.Does.{given};
ghost use Rattle.walk_meaning.specs.Exprs.{number_does, text_does, number_value, text_value, tested};
ghost use Rattle.bt_lower.specs.Code.{begun, pushed};
ghost use Rattle.bt_lower.specs.Lowers.{LowersAny, LowersNumber, LowersText, LowersList, LowersArm, all_made, known_need};
ghost use Rattle.map_ops.specs.Values.{shape_of};
ghost use Rattle.bt_lower.specs.Needs.{number_need, text_need, more};

use crate::code::Code;
use bt_core::items::Items;
use bt_core::map::{MapId, Shape};
use bt_core::memory::{Memory, TryCopy};
use bt_core::value::Value;
use event_layout::field::Field;
use ir_code::blocks::Exit;
use ir_code::instr::Instr;
use ir_code::state::shape_of;
use std::alloc::Global;
use typed_tree::expr::{AnyExpr, NumExpr, StrExpr};

/// The types of a key's parts.
pub fn shapes_of(alloc: Global, keys: &[AnyExpr]) -> Result<Items<Shape>, Memory>
    ensures { IfOk result (λ shapes. shapes ≡ key_shapes (all_made keys.now)) }
{
    let mut shapes = Items::new(alloc);
    for key in keys {
        shapes.push(key.shape())?;
    }
    Ok(shapes)
}

/// Puts the number in a field before what is open.
fn push_number_field(alloc: Global, field: &Field, code: &mut Code) -> Result<(), Memory>
    ensures { OnOk result (code.new ≡ pushed (instrs.NumberField field.now) code.old) }
{
    let field = field.try_copy(alloc)?;
    code.push(alloc, Instr::NumberField(field))
}

/// Likewise the string in a field.
fn push_text_field(alloc: Global, field: &Field, code: &mut Code) -> Result<(), Memory>
    ensures { OnOk result (code.new ≡ pushed (instrs.TextField field.now) code.old) }
{
    let field = field.try_copy(alloc)?;
    code.push(alloc, Instr::TextField(field))
}

/// Likewise the value that a map has at a key.
fn push_get(
    alloc: Global,
    map: MapId,
    keys: &[AnyExpr],
    shape: Shape,
    code: &mut Code,
) -> Result<(), Memory>
    ensures { OnOk result (code.new ≡ pushed (instrs.Get map (key_shapes (all_made keys.now)) shape) code.old) }
{
    let key = shapes_of(alloc, keys)?;
    code.push(alloc, Instr::Get { map, key, shape })
}

/// Likewise an aggregation at a key.
fn push_read_agg(alloc: Global, map: MapId, keys: &[AnyExpr], code: &mut Code) -> Result<(), Memory>
    ensures { OnOk result (code.new ≡ pushed (instrs.ReadAgg map (key_shapes (all_made keys.now))) code.old) }
{
    let key = shapes_of(alloc, keys)?;
    code.push(alloc, Instr::ReadAgg { map, key })
}

/// Likewise the step of a map's number at a key.
fn push_step_map(
    alloc: Global,
    map: MapId,
    keys: &[AnyExpr],
    plus: bool,
    prefix: bool,
    code: &mut Code,
) -> Result<(), Memory>
    ensures { OnOk result (code.new ≡ pushed (instrs.StepMap map (key_shapes (all_made keys.now)) plus prefix) code.old) }
{
    let key = shapes_of(alloc, keys)?;
    code.push(
        alloc,
        Instr::StepMap {
            map,
            key,
            plus,
            prefix,
        },
    )
}

/// Lowers an expression.
#[cycle(value)]
pub fn lower_value(alloc: Global, e: &AnyExpr, code: &mut Code) -> Result<(), Memory>
    ensures { OnOk result (LowersAny e.now code.old code.new) }
{
    match e {
        AnyExpr::Num(e) => lower_number(alloc, e, code),
        AnyExpr::Str(e) => lower_text(alloc, e, code),
    }
}

/// Lowers a whole number.
#[cycle(value)]
pub fn lower_number(alloc: Global, e: &NumExpr, code: &mut Code) -> Result<(), Memory>
    ensures { OnOk result (LowersNumber e.now code.old code.new) }
{
    match e {
        NumExpr::Number(n) => code.push(alloc, Instr::Put(Value::Int(*n))),
        NumExpr::Builtin(b) => code.push(alloc, Instr::Builtin(*b)),
        NumExpr::Field(f) => push_number_field(alloc, f, code),
        NumExpr::Var(x) => code.push(
            alloc,
            Instr::Load {
                var: *x,
                shape: Shape::Int,
            },
        ),
        NumExpr::Map { map, keys } => {
            push_get(alloc, *map, keys.as_slice(), Shape::Int, code)?;
            lower_values(alloc, keys.as_slice(), code)
        }
        NumExpr::Agg { map, keys } => {
            push_read_agg(alloc, *map, keys.as_slice(), code)?;
            lower_values(alloc, keys.as_slice(), code)
        }
        NumExpr::StepVar { var, plus, prefix } => code.push(
            alloc,
            Instr::StepVar {
                var: *var,
                plus: *plus,
                prefix: *prefix,
            },
        ),
        NumExpr::StepMap {
            map,
            keys,
            plus,
            prefix,
        } => {
            push_step_map(alloc, *map, keys.as_slice(), *plus, *prefix, code)?;
            lower_values(alloc, keys.as_slice(), code)
        }
        NumExpr::Unary { op, value } => {
            code.push(alloc, Instr::Unary(*op))?;
            lower_number(alloc, value.get(), code)
        }
        NumExpr::Binary { op, left, right } => {
            code.push(alloc, Instr::Binary(*op))?;
            lower_number(alloc, right.get(), code)?;
            lower_number(alloc, left.get(), code)
        }
        NumExpr::Compare { equal, left, right } => {
            code.push(alloc, Instr::Compare { equal: *equal })?;
            lower_text(alloc, right.get(), code)?;
            lower_text(alloc, left.get(), code)
        }
        NumExpr::AndThen { left, right } => {
            let after = code.close_below(alloc)?;
            let second = known_arm(alloc, Value::Int(0), after, code)?;
            let first = tested_arm(alloc, right.get(), after, code)?;
            lower_test(alloc, left.get(), first, second, code)
        }
        NumExpr::OrElse { left, right } => {
            let after = code.close_below(alloc)?;
            let second = tested_arm(alloc, right.get(), after, code)?;
            let first = known_arm(alloc, Value::Int(1), after, code)?;
            lower_test(alloc, left.get(), first, second, code)
        }
        NumExpr::Choose { condition, yes, no } => {
            let after = code.close_below(alloc)?;
            let second = lower_number_arm(alloc, no.get(), after, code)?;
            let first = lower_number_arm(alloc, yes.get(), after, code)?;
            lower_test(alloc, condition.get(), first, second, code)
        }
    }
}

/// Lowers a string.
#[cycle(value)]
pub fn lower_text(alloc: Global, e: &StrExpr, code: &mut Code) -> Result<(), Memory>
    ensures { OnOk result (LowersText e.now code.old code.new) }
{
    match e {
        StrExpr::Text(s) => code.push(alloc, Instr::Put(Value::Str(s.copy()))),
        StrExpr::Comm => code.push(alloc, Instr::Comm),
        StrExpr::Field(f) => push_text_field(alloc, f, code),
        StrExpr::Var(x) => code.push(
            alloc,
            Instr::Load {
                var: *x,
                shape: Shape::Str,
            },
        ),
        StrExpr::Map { map, keys } => {
            push_get(alloc, *map, keys.as_slice(), Shape::Str, code)?;
            lower_values(alloc, keys.as_slice(), code)
        }
        StrExpr::Choose { condition, yes, no } => {
            let after = code.close_below(alloc)?;
            let second = lower_text_arm(alloc, no.get(), after, code)?;
            let first = lower_text_arm(alloc, yes.get(), after, code)?;
            lower_test(alloc, condition.get(), first, second, code)
        }
    }
}

/// Lowers expressions that are evaluated from left to right: the last one is evaluated last, so it is lowered first.
#[cycle(value)]
pub fn lower_values(alloc: Global, es: &[AnyExpr], code: &mut Code) -> Result<(), Memory>
    ensures { OnOk result (LowersList es.now code.old code.new) }
{
    let mut left = es.len();
    while left > 0 {
        left -= 1;
        lower_value(alloc, &es[left], code)?;
    }
    Ok(())
}

/// Lowers a test: where the whole number counts as true the one block is next, and otherwise the other.
#[cycle(value)]
pub fn lower_test(
    alloc: Global,
    test: &NumExpr,
    first: usize,
    second: usize,
    code: &mut Code,
) -> Result<(), Memory>
    ensures { OnOk result (LowersNumber test.now (begun (Branch first second) (shapes.Int ∷ []) code.old) code.new) }
{
    code.begin(alloc, Exit::Branch { first, second }, &[Shape::Int])?;
    lower_number(alloc, test, code)
}

/// A block that evaluates a whole number and goes on to a block.
#[cycle(value)]
fn lower_number_arm(
    alloc: Global,
    e: &NumExpr,
    after: usize,
    code: &mut Code,
) -> Result<usize, Memory>
    ensures { IfOk result (λ number. LowersArm (num_parts e.now) (number_value (number_does e.now)) shapes.Int
        (more 1 (number_need e.now)) after code.old code.new number) }
{
    code.begin(alloc, Exit::Goto(after), &[Shape::Int])?;
    lower_number(alloc, e, code)?;
    code.close(alloc)
}

/// Likewise a string.
#[cycle(value)]
fn lower_text_arm(
    alloc: Global,
    e: &StrExpr,
    after: usize,
    code: &mut Code,
) -> Result<usize, Memory>
    ensures { IfOk result (λ number. LowersArm (str_parts e.now) (text_value (text_does e.now)) shapes.Str
        (more 1 (text_need e.now)) after code.old code.new number) }
{
    code.begin(alloc, Exit::Goto(after), &[Shape::Str])?;
    lower_text(alloc, e, code)?;
    code.close(alloc)
}

/// Likewise 1 where a number counts as true and otherwise 0.
#[cycle(value)]
fn tested_arm(alloc: Global, e: &NumExpr, after: usize, code: &mut Code) -> Result<usize, Memory>
    ensures { IfOk result (λ number. LowersArm (num_parts e.now) (number_value (tested (number_does e.now))) shapes.Int
        (more 5 (number_need e.now)) after code.old code.new number) }
{
    code.begin(alloc, Exit::Goto(after), &[Shape::Int])?;
    code.push(alloc, Instr::Truth)?;
    lower_number(alloc, e, code)?;
    code.close(alloc)
}

/// Likewise a value that is known.
fn known_arm(alloc: Global, value: Value, after: usize, code: &mut Code) -> Result<usize, Memory>
    ensures { IfOk result (λ number. LowersArm [] (given value) (shape_of value) (more 1 (known_need value)) after code.old code.new number) }
{
    code.begin(alloc, Exit::Goto(after), &[shape_of(&value)])?;
    code.push(alloc, Instr::Put(value))?;
    code.close(alloc)
}
