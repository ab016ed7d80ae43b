// The instructions of a block, one after another.
ghost use Rattle.std.specs.Prelude.{◌≡◌, ◌++◌, ◌-◌, ◌∷◌, [], Some, OnOk, IfOk, take, length};
ghost use Rattle.bt_core.specs.declared.value.Value.TheVariants.{Int};
ghost use Rattle.ir_code.specs.declared.instr.Instr.TheVariants as i;
ghost use Rattle.bt_core.specs.Arithmetic.{binary_value, unary_value, truth};
ghost use Rattle.map_ops.specs.Values.{number_of, holds};
ghost use Rattle.ir_fold.specs.Folded.{literal_in, literal_before, Adds, Betters, AllVary};

use bt_core::arithmetic::{binary, unary};
use bt_core::items::Items;
use bt_core::memory::Memory;
use bt_core::operator::{BinOp, UnOp};
use bt_core::value::Value;
use ir_code::instr::Instr;
use map_ops::values::{holds, number_of};
use std::alloc::Global;
use std::mem;

/// The value that an instruction puts, where it is a literal.
fn literal(instr: &Instr) -> Option<Value>
    ensures { result ≡ literal_in (Some instr.now) }
{
    match instr {
        Instr::Put(value) => Some(value.copy()),
        _ => None,
    }
}

/// The value that the instruction puts so many places before the end.
pub fn literal_before(instrs: &Items<Instr>, back: usize) -> Option<Value>
    ensures { result ≡ literal_before back instrs.now }
{
    if back > instrs.len() {
        return None;
    }
    match instrs.get(instrs.len() - back) {
        None => None,
        Some(instr) => literal(instr),
    }
}

/// Takes so many instructions off the end.
pub fn take_off(alloc: Global, instrs: &mut Items<Instr>, count: usize)
    ensures { instrs.new ≡ take (length instrs.old - count) instrs.old }
{
    let mut list = mem::replace(instrs, Items::new(alloc)).into_vec();
    let keep = list.len().saturating_sub(count);
    list.truncate(keep);
    *instrs = Items::of(list);
}

/// Puts an instruction in the place of so many at the end.
fn put_over(
    alloc: Global,
    instr: Instr,
    count: usize,
    instrs: &mut Items<Instr>,
) -> Result<(), Memory>
    ensures { OnOk result (instrs.new ≡ take (length instrs.old - count) instrs.old ++ instr ∷ []) }
{
    take_off(alloc, instrs, count);
    instrs.push(instr)
}

/// The literal that an operator makes of two.
fn binary_literal(op: BinOp, a: &Value, b: &Value) -> Instr
    ensures { result ≡ i.Put (Int (binary_value op (number_of a.now) (number_of b.now))) }
{
    Instr::Put(Value::Int(binary(op, number_of(a), number_of(b))))
}

/// The literal that an operator makes of one.
fn unary_literal(op: UnOp, a: &Value) -> Instr
    ensures { result ≡ i.Put (Int (unary_value op (number_of a.now))) }
{
    Instr::Put(Value::Int(unary(op, number_of(a))))
}

/// The literal that a test makes of one.
fn truth_literal(a: &Value) -> Instr
    ensures { result ≡ i.Put (Int (truth (holds (number_of a.now)))) }
{
    if holds(number_of(a)) {
        Instr::Put(Value::Int(1))
    } else {
        Instr::Put(Value::Int(0))
    }
}

/// Adds an operator on two numbers, or its value.
fn add_binary(alloc: Global, op: BinOp, instrs: &mut Items<Instr>) -> Result<(), Memory>
    ensures { OnOk result (Adds instrs.old (i.Binary op) instrs.new) }
{
    let Some(a) = literal_before(instrs, 2) else {
        instrs.push(Instr::Binary(op))?;
        return Ok(());
    };
    let Some(b) = literal_before(instrs, 1) else {
        instrs.push(Instr::Binary(op))?;
        return Ok(());
    };
    put_over(alloc, binary_literal(op, &a, &b), 2, instrs)?;
    Ok(())
}

/// Adds an operator on a number, or its value.
fn add_unary(alloc: Global, op: UnOp, instrs: &mut Items<Instr>) -> Result<(), Memory>
    ensures { OnOk result (Adds instrs.old (i.Unary op) instrs.new) }
{
    match literal_before(instrs, 1) {
        Some(a) => put_over(alloc, unary_literal(op, &a), 1, instrs)?,
        None => instrs.push(Instr::Unary(op))?,
    }
    Ok(())
}

/// Adds a test of a number, or its value.
fn add_truth(alloc: Global, instrs: &mut Items<Instr>) -> Result<(), Memory>
    ensures { OnOk result (Adds instrs.old i.Truth instrs.new) }
{
    match literal_before(instrs, 1) {
        Some(a) => put_over(alloc, truth_literal(&a), 1, instrs)?,
        None => instrs.push(Instr::Truth)?,
    }
    Ok(())
}

/// Lets a number go, or does not put it.
fn add_pop(alloc: Global, instrs: &mut Items<Instr>) -> Result<(), Memory>
    ensures { OnOk result (Adds instrs.old i.Pop instrs.new) }
{
    match literal_before(instrs, 1) {
        Some(_) => take_off(alloc, instrs, 1),
        None => instrs.push(Instr::Pop)?,
    }
    Ok(())
}

/// Adds an instruction behind others, or what it makes of literals.
pub fn add(alloc: Global, instr: Instr, instrs: &mut Items<Instr>) -> Result<(), Memory>
    ensures { OnOk result (Adds instrs.old instr instrs.new) }
{
    match instr {
        Instr::Binary(op) => add_binary(alloc, op, instrs)?,
        Instr::Unary(op) => add_unary(alloc, op, instrs)?,
        Instr::Truth => add_truth(alloc, instrs)?,
        Instr::Pop => add_pop(alloc, instrs)?,
        other => instrs.push(other)?,
    }
    Ok(())
}

/// Instructions without operators on literals, which do the same.
pub fn fold_instrs(alloc: Global, instrs: Items<Instr>) -> Result<Items<Instr>, Memory>
    ensures better { IfOk result (λ folded. Betters instrs folded) }
    ensures varies { IfOk result (λ folded. AllVary folded) }
{
    let mut folded = Items::new(alloc);
    for instr in instrs.into_vec() {
        add(alloc, instr, &mut folded)?;
    }
    Ok(folded)
}
