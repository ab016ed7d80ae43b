// Values, and the stack that instructions work on.
ghost use Rattle.std.specs.Prelude.{◌≡◌, IfOk, OnOk};
ghost use Rattle.ir_code.specs.Meaning.{put, variable, with_variable};
ghost use Rattle.ir_code.specs.Typing.{last_of, front_of};
ghost use Rattle.ir_code.specs.Stacks.{top, below};

use bt_core::items::Items;
use bt_core::memory::Memory;
use bt_core::value::Value;
use ir_code::state::State;
use std::alloc::Global;
use std::mem;

/// A variable by its number.
pub fn variable(var: u32, state: &State) -> Value
    ensures { result ≡ variable var state.now }
{
    match state.variables.get(var as usize) {
        Some(value) => value.copy(),
        None => Value::Int(0),
    }
}

/// Sets a variable, where there is one of this number.
pub fn assign(var: u32, value: Value, state: &mut State)
    ensures { state.new ≡ with_variable var value state.old }
{
    let place = var as usize;
    if place < state.variables.len() {
        state.variables.set(place, value);
    }
}

/// Puts a value on the stack.
pub fn put(value: Value, state: &mut State) -> Result<(), Memory>
    ensures { OnOk result (state.new ≡ put value state.old) }
{
    state.stack.push(value)
}

/// Takes the last value off the stack.
pub fn pop(stack: &mut Items<Value>) -> Value
    ensures value { result ≡ top stack.old }
    ensures rest { stack.new ≡ below stack.old }
{
    let len = stack.len();
    if len == 0 {
        Value::Int(0)
    } else {
        stack.remove(len - 1)
    }
}

/// Takes the last values off the stack, so many of them.
pub fn pop_key(alloc: Global, count: usize, stack: &mut Items<Value>) -> Result<Vec<Value>, Memory>
    ensures key { IfOk result (λ key. key.items ≡ last_of count stack.old) }
    ensures rest { OnOk result (stack.new ≡ front_of count stack.old) }
{
    let mut list = mem::replace(stack, Items::new(alloc)).into_vec();
    let at = list.len().saturating_sub(count);
    let key = list.split_off(at)?;
    *stack = Items::of(list);
    Ok(key)
}
