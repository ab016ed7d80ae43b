// Single instructions.
ghost use Rattle.std.specs.Prelude.{◌≡◌, ◌≤◌, OnOk, length};
ghost use Rattle.std.specs.Prelude.{cond, not};
ghost use Rattle.std.specs.Str.{bytes_eq};
ghost use Rattle.bt_core.specs.declared.limits.TheConstants.{KEY_PARTS as MOST_PARTS};
ghost use Rattle.bt_core.specs.declared.value.Value.TheVariants as values;
ghost use Rattle.bt_core.specs.Arithmetic.{binary_value, unary_value, truth};
ghost use Rattle.bt_core.specs.Interaction.{Performed};
ghost use Rattle.bt_core.specs.Kinds.{IsAggregation};
ghost use Rattle.map_ops.specs.Holders.{kind_of, CanSweep};
ghost use Rattle.ir_code.specs.Meaning.{instr_run, instrs_run, store_on, step_variable_on, update_variable_on, unary_on, binary_on, compared_on, truth_on};
ghost use Rattle.ir_code.specs.Meaning.{get_on, set_on, delete_on, updated, update_on, stepped, step_on, sum_on, add_on, count_on, printf_on, sweep_on};
ghost use Rattle.map_ops.specs.Asking.{printed, summed};
ghost use Rattle.bt_ir.specs.Running.{MayAsk, Did, IsReady, AreReady, scene_in};
ghost use Rattle.map_ops.specs.Values.{next, number_of, text_of, holds};
ghost use Rattle.map_ops.specs.Builtins.{builtin_value};

use crate::stack::{assign, pop, pop_key, put, variable};
use bt_core::arithmetic::{binary, unary};
use bt_core::context::Context;
use bt_core::item::Item;
use bt_core::items::Items;
use bt_core::key::Key;
use bt_core::map::{MapDecl, MapId, MapKind, Shape};
use bt_core::memory::{Memory, TryCopy};
use bt_core::operator::{BinOp, UnOp};
use bt_core::port::Port;
use bt_core::step::{ObjectId, Op};
use bt_core::value::Value;
use event_record::reading::{int_field, str_field};
use ir_code::instr::Instr;
use ir_code::state::State;
use map_ops::access::{get, part, tell};
use map_ops::builtin::builtin_value;
use map_ops::printing::print_map;
use map_ops::summing::sum_under;
use map_ops::sweep::{Sweep, ask_each};
use map_ops::values::{as_shape, holds, next, number_of, text_of};
use std::alloc::Global;

/// What a run sees: the context and the payload, the actor that runs, how many actors there are, and the script's maps.
#[derive(Clone, Copy)]
pub struct View<'a> {
    pub context: &'a Context,
    pub payload: &'a [u8],
    pub actor: u32,
    pub actors: u32,
    pub maps: &'a [MapDecl],
}

/// What a map holds, by its declaration.
fn kind_of(maps: &[MapDecl], map: MapId) -> MapKind
    ensures { result ≡ kind_of maps.now map }
{
    match maps.get(map.0 as usize) {
        Some(decl) => decl.kind,
        None => MapKind::Ints,
    }
}

/// One more or one less.
fn stepped_value(plus: bool, value: &Value) -> Value
    ensures { result ≡ values.Int (next plus (number_of value.now)) }
{
    Value::Int(next(plus, number_of(value)))
}

/// What an operator makes of two numbers.
fn joined(op: BinOp, a: &Value, b: &Value) -> Value
    ensures { result ≡ values.Int (binary_value op (number_of a.now) (number_of b.now)) }
{
    Value::Int(binary(op, number_of(a), number_of(b)))
}

/// What an operator makes of a number.
fn prefixed(op: UnOp, a: &Value) -> Value
    ensures { result ≡ values.Int (unary_value op (number_of a.now)) }
{
    Value::Int(unary(op, number_of(a)))
}

/// 1 or 0.
fn flag(holds: bool) -> Value
    ensures { result ≡ values.Int (truth holds) }
{
    if holds { Value::Int(1) } else { Value::Int(0) }
}

/// Whether two strings are equal, or whether they differ.
fn compared(equal: bool, a: &Value, b: &Value) -> bool
    ensures { result ≡ cond equal (bytes_eq (text_of a.now) (text_of b.now)) (not (bytes_eq (text_of a.now) (text_of b.now))) }
{
    let left = text_of(a);
    let right = text_of(b);
    let same = left.bytes() == right.bytes();
    if equal { same } else { !same }
}

/// Takes a value into a variable.
fn store(var: u32, state: &mut State)
    ensures { state.new ≡ store_on var state.old }
{
    let value = pop(&mut state.stack);
    assign(var, value, state);
}

/// Steps a variable, and puts its new value or its old one.
fn step_variable(var: u32, plus: bool, prefix: bool, state: &mut State) -> Result<(), Memory>
    ensures { OnOk result (state.new ≡ step_variable_on var plus prefix state.old) }
{
    let value = variable(var, state);
    let old = as_shape(Shape::Int, &value);
    let new = stepped_value(plus, &value);
    assign(var, new.copy(), state);
    if prefix {
        put(new, state)
    } else {
        put(old, state)
    }
}

/// Sets a variable to what an operator makes of it and of the number on the stack.
fn update_variable(var: u32, op: BinOp, state: &mut State)
    ensures { state.new ≡ update_variable_on var op state.old }
{
    let right = pop(&mut state.stack);
    let value = joined(op, &variable(var, state), &right);
    assign(var, value, state);
}

/// Puts what an operator makes of the number on the stack.
fn unary_on(op: UnOp, state: &mut State) -> Result<(), Memory>
    ensures { OnOk result (state.new ≡ unary_on op state.old) }
{
    let value = pop(&mut state.stack);
    put(prefixed(op, &value), state)
}

/// Puts what an operator makes of the two numbers on the stack.
fn binary_on(op: BinOp, state: &mut State) -> Result<(), Memory>
    ensures { OnOk result (state.new ≡ binary_on op state.old) }
{
    let right = pop(&mut state.stack);
    let left = pop(&mut state.stack);
    put(joined(op, &left, &right), state)
}

/// Puts 1 or 0, by whether the two strings on the stack are equal.
fn compare_on(equal: bool, state: &mut State) -> Result<(), Memory>
    ensures { OnOk result (state.new ≡ compared_on equal state.old) }
{
    let right = pop(&mut state.stack);
    let left = pop(&mut state.stack);
    put(flag(compared(equal, &left, &right)), state)
}

/// Puts 1 or 0, by whether the number on the stack counts as true.
fn truth_on(state: &mut State) -> Result<(), Memory>
    ensures { OnOk result (state.new ≡ truth_on state.old) }
{
    let value = pop(&mut state.stack);
    put(flag(holds(number_of(&value))), state)
}

/// Puts the value of a map under the key on the stack.
fn get_on<P: Port>(
    alloc: Global,
    map: MapId,
    key: &[Shape],
    shape: Shape,
    state: &mut State,
    port: &mut P,
) -> Result<(), Memory>
    requires few { length key.now ≤ MOST_PARTS }
    requires can { MayAsk (P.fixed port.old).setting (get_on map key.now shape state.old) }
    ensures performed { Did (get_on map key.now shape state.old) (P.steps port.old) (P.steps port.new) result state.new }
    ensures kept { P.fixed port.new ≡ P.fixed port.old }
{
    let parts = pop_key(alloc, key.len(), &mut state.stack)?;
    let value = get(alloc, map, Key::of(parts), port)?;
    put(as_shape(shape, &value), state)
}

/// The number of an aggregation under a key, over the tables of all actors.
fn sum<P: Port>(
    alloc: Global,
    view: &View<'_>,
    map: MapId,
    key: &Key,
    port: &mut P,
) -> Result<i64, Memory>
    requires can { CanSweep (P.fixed port.old).setting map (kind_of view.now.maps.now map) view.now.actors }
    requires gathers { IsAggregation (kind_of view.now.maps.now map) }
    ensures performed { Performed (summed map key.now view.now.actors) (P.steps port.old) (P.steps port.new) result }
    ensures kept { P.fixed port.new ≡ P.fixed port.old }
{
    let kind = kind_of(view.maps, map);
    sum_under(alloc, kind, map, key, view.actors, port)
}

/// Puts the number of an aggregation under the key on the stack.
fn sum_on<P: Port>(
    alloc: Global,
    view: &View<'_>,
    map: MapId,
    key: &[Shape],
    state: &mut State,
    port: &mut P,
) -> Result<(), Memory>
    requires few { length key.now ≤ MOST_PARTS }
    requires can { CanSweep (P.fixed port.old).setting map (kind_of view.now.maps.now map) view.now.actors }
    requires gathers { IsAggregation (kind_of view.now.maps.now map) }
    ensures performed { Did (sum_on map key.now view.now.actors state.old) (P.steps port.old) (P.steps port.new) result state.new }
    ensures kept { P.fixed port.new ≡ P.fixed port.old }
{
    let parts = pop_key(alloc, key.len(), &mut state.stack)?;
    let number = sum(alloc, view, map, &Key::of(parts), port)?;
    put(Value::Int(number), state)
}

/// Sets the value under the key on the stack to the one above it.
fn set_on<P: Port>(
    alloc: Global,
    map: MapId,
    key: &[Shape],
    state: &mut State,
    port: &mut P,
) -> Result<(), Memory>
    requires few { length key.now ≤ MOST_PARTS }
    requires can { MayAsk (P.fixed port.old).setting (set_on map key.now state.old) }
    ensures performed { Did (set_on map key.now state.old) (P.steps port.old) (P.steps port.new) result state.new }
    ensures kept { P.fixed port.new ≡ P.fixed port.old }
{
    let value = pop(&mut state.stack);
    let parts = pop_key(alloc, key.len(), &mut state.stack)?;
    let key = Key::of(parts);
    let object = part(map, &key);
    let mut op = Op::Set(key, value);
    tell(alloc, object, &mut op, port)?;
    Ok(())
}

/// Takes the key on the stack away from a map.
fn delete_on<P: Port>(
    alloc: Global,
    map: MapId,
    key: &[Shape],
    state: &mut State,
    port: &mut P,
) -> Result<(), Memory>
    requires few { length key.now ≤ MOST_PARTS }
    requires can { MayAsk (P.fixed port.old).setting (delete_on map key.now state.old) }
    ensures performed { Did (delete_on map key.now state.old) (P.steps port.old) (P.steps port.new) result state.new }
    ensures kept { P.fixed port.new ≡ P.fixed port.old }
{
    let parts = pop_key(alloc, key.len(), &mut state.stack)?;
    let key = Key::of(parts);
    let object = part(map, &key);
    let mut op = Op::Delete(key);
    tell(alloc, object, &mut op, port)?;
    Ok(())
}

/// Sets the number under a key to what an operator makes of it and of another number.
fn update<P: Port>(
    alloc: Global,
    map: MapId,
    key: Key,
    op: BinOp,
    right: &Value,
    port: &mut P,
) -> Result<(), Memory>
    requires { MayAsk (P.fixed port.old).setting (updated map key op (number_of right.now)) }
    ensures performed { Performed (updated map key op (number_of right.now)) (P.steps port.old) (P.steps port.new) result }
    ensures kept { P.fixed port.new ≡ P.fixed port.old }
{
    let again = key.try_copy(alloc)?;
    let object = part(map, &key);
    let old = get(alloc, map, again, port)?;
    let mut set = Op::Set(key, joined(op, &old, right));
    tell(alloc, object, &mut set, port)?;
    Ok(())
}

/// `op=`, by the key on the stack and the number above it.
fn update_on<P: Port>(
    alloc: Global,
    map: MapId,
    key: &[Shape],
    op: BinOp,
    state: &mut State,
    port: &mut P,
) -> Result<(), Memory>
    requires few { length key.now ≤ MOST_PARTS }
    requires can { MayAsk (P.fixed port.old).setting (update_on map key.now op state.old) }
    ensures performed { Did (update_on map key.now op state.old) (P.steps port.old) (P.steps port.new) result state.new }
    ensures kept { P.fixed port.new ≡ P.fixed port.old }
{
    let right = pop(&mut state.stack);
    let parts = pop_key(alloc, key.len(), &mut state.stack)?;
    update(alloc, map, Key::of(parts), op, &right, port)?;
    Ok(())
}

/// Steps the number under a key, and gives the new one or the old one.
fn step<P: Port>(
    alloc: Global,
    map: MapId,
    key: Key,
    plus: bool,
    prefix: bool,
    port: &mut P,
) -> Result<Value, Memory>
    requires { MayAsk (P.fixed port.old).setting (stepped map key plus prefix) }
    ensures performed { Performed (stepped map key plus prefix) (P.steps port.old) (P.steps port.new) result }
    ensures kept { P.fixed port.new ≡ P.fixed port.old }
{
    let again = key.try_copy(alloc)?;
    let object = part(map, &key);
    let old = get(alloc, map, again, port)?;
    let new = stepped_value(plus, &old);
    let mut op = Op::Set(key, new.copy());
    tell(alloc, object, &mut op, port)?;
    if prefix {
        Ok(new)
    } else {
        Ok(as_shape(Shape::Int, &old))
    }
}

/// `++` and `--`, by the key on the stack.
fn step_on<P: Port>(
    alloc: Global,
    map: MapId,
    key: &[Shape],
    plus: bool,
    prefix: bool,
    state: &mut State,
    port: &mut P,
) -> Result<(), Memory>
    requires few { length key.now ≤ MOST_PARTS }
    requires can { MayAsk (P.fixed port.old).setting (step_on map key.now plus prefix state.old) }
    ensures performed { Did (step_on map key.now plus prefix state.old) (P.steps port.old) (P.steps port.new) result state.new }
    ensures kept { P.fixed port.new ≡ P.fixed port.old }
{
    let parts = pop_key(alloc, key.len(), &mut state.stack)?;
    let value = step(alloc, map, Key::of(parts), plus, prefix, port)?;
    put(value, state)
}

/// Adds the number on the stack to an actor's table, under the key below it.
fn add_on<P: Port>(
    alloc: Global,
    actor: u32,
    map: MapId,
    key: &[Shape],
    state: &mut State,
    port: &mut P,
) -> Result<(), Memory>
    requires few { length key.now ≤ MOST_PARTS }
    requires can { MayAsk (P.fixed port.old).setting (add_on actor map key.now state.old) }
    ensures performed { Did (add_on actor map key.now state.old) (P.steps port.old) (P.steps port.new) result state.new }
    ensures kept { P.fixed port.new ≡ P.fixed port.old }
{
    let value = pop(&mut state.stack);
    let parts = pop_key(alloc, key.len(), &mut state.stack)?;
    let mut op = Op::Add(map, Key::of(parts), number_of(&value));
    tell(alloc, ObjectId::Cpu(actor), &mut op, port)?;
    Ok(())
}

/// Adds 1 to an actor's table, under the key on the stack.
fn count_on<P: Port>(
    alloc: Global,
    actor: u32,
    map: MapId,
    key: &[Shape],
    state: &mut State,
    port: &mut P,
) -> Result<(), Memory>
    requires few { length key.now ≤ MOST_PARTS }
    requires can { MayAsk (P.fixed port.old).setting (count_on actor map key.now state.old) }
    ensures performed { Did (count_on actor map key.now state.old) (P.steps port.old) (P.steps port.new) result state.new }
    ensures kept { P.fixed port.new ≡ P.fixed port.old }
{
    let parts = pop_key(alloc, key.len(), &mut state.stack)?;
    let mut op = Op::Add(map, Key::of(parts), 1);
    tell(alloc, ObjectId::Cpu(actor), &mut op, port)?;
    Ok(())
}

/// Prints the values on the stack by a format.
fn printf_on<P: Port>(
    alloc: Global,
    format: u32,
    shapes: &[Shape],
    state: &mut State,
    port: &mut P,
) -> Result<(), Memory>
    ensures performed { Did (printf_on format shapes.now state.old) (P.steps port.old) (P.steps port.new) result state.new }
    ensures kept { P.fixed port.new ≡ P.fixed port.old }
{
    let values = Items::of(pop_key(alloc, shapes.len(), &mut state.stack)?);
    let mut op = Op::Emit(Item::Printf { format, values });
    tell(alloc, ObjectId::Out, &mut op, port)?;
    Ok(())
}

/// Prints a map: one item with the merged rows of all objects that hold it.
fn print<P: Port>(
    alloc: Global,
    view: &View<'_>,
    map: MapId,
    top: u64,
    div: i64,
    port: &mut P,
) -> Result<(), Memory>
    requires { CanSweep (P.fixed port.old).setting map (kind_of view.now.maps.now map) view.now.actors }
    ensures performed { Performed (printed (kind_of view.now.maps.now map) map top div view.now.actors) (P.steps port.old) (P.steps port.new) result }
    ensures kept { P.fixed port.new ≡ P.fixed port.old }
{
    let kind = kind_of(view.maps, map);
    print_map(alloc, kind, map, top, div, view.actors, port)
}

/// Does a sweep, whose replies say nothing.
fn sweep<P: Port>(
    alloc: Global,
    view: &View<'_>,
    sweep: Sweep,
    map: MapId,
    state: &State,
    port: &mut P,
) -> Result<(), Memory>
    requires { CanSweep (P.fixed port.old).setting map (kind_of view.now.maps.now map) view.now.actors }
    ensures performed { Did (sweep_on sweep (kind_of view.now.maps.now map) map view.now.actors state.now) (P.steps port.old) (P.steps port.new) result state.now }
    ensures kept { P.fixed port.new ≡ P.fixed port.old }
{
    let _ = state;
    let kind = kind_of(view.maps, map);
    ask_each(alloc, sweep, kind, map, view.actors, port)?;
    Ok(())
}

/// Runs an instruction.
pub fn run_instr<P: Port>(
    alloc: Global,
    view: &View<'_>,
    instr: &Instr,
    state: &mut State,
    port: &mut P,
) -> Result<(), Memory>
    requires ready { IsReady (P.fixed port.old).setting view.now instr.now }
    requires can { MayAsk (P.fixed port.old).setting (instr_run instr.now (scene_in view.now) state.old) }
    ensures performed { Did (instr_run instr.now (scene_in view.now) state.old) (P.steps port.old) (P.steps port.new) result state.new }
    ensures kept { P.fixed port.new ≡ P.fixed port.old }
{
    match instr {
        Instr::Put(value) => put(value.copy(), state)?,
        Instr::Builtin(builtin) => put(Value::Int(builtin_value(*builtin, view.context)), state)?,
        Instr::Comm => put(Value::Str(view.context.comm.copy()), state)?,
        Instr::NumberField(field) => put(Value::Int(int_field(field, view.payload)), state)?,
        Instr::TextField(field) => put(Value::Str(str_field(field, view.payload)), state)?,
        Instr::Load { var, shape } => put(as_shape(*shape, &variable(*var, state)), state)?,
        Instr::Store { var, .. } => store(*var, state),
        Instr::StepVar { var, plus, prefix } => step_variable(*var, *plus, *prefix, state)?,
        Instr::UpdateVar { var, op } => update_variable(*var, *op, state),
        Instr::Unary(op) => unary_on(*op, state)?,
        Instr::Binary(op) => binary_on(*op, state)?,
        Instr::Compare { equal } => compare_on(*equal, state)?,
        Instr::Truth => truth_on(state)?,
        Instr::Get { map, key, shape } => get_on(alloc, *map, key.as_slice(), *shape, state, port)?,
        Instr::ReadAgg { map, key } => sum_on(alloc, view, *map, key.as_slice(), state, port)?,
        Instr::Set { map, key, .. } => set_on(alloc, *map, key.as_slice(), state, port)?,
        Instr::Delete { map, key } => delete_on(alloc, *map, key.as_slice(), state, port)?,
        Instr::Update { map, key, op } => update_on(alloc, *map, key.as_slice(), *op, state, port)?,
        Instr::StepMap {
            map,
            key,
            plus,
            prefix,
        } => step_on(alloc, *map, key.as_slice(), *plus, *prefix, state, port)?,
        Instr::Add { map, key } => add_on(alloc, view.actor, *map, key.as_slice(), state, port)?,
        Instr::Count { map, key } => count_on(
            alloc,
            view.actor,
            *map,
            key.as_slice(),
            state,
            port,
        )?,
        Instr::Printf { format, shapes } => printf_on(
            alloc,
            *format,
            shapes.as_slice(),
            state,
            port,
        )?,
        Instr::Print { map, top, div } => print(alloc, view, *map, *top, *div, port)?,
        Instr::Clear(map) => sweep(alloc, view, Sweep::Clear, *map, state, port)?,
        Instr::Zero(map) => sweep(alloc, view, Sweep::Zero, *map, state, port)?,
        Instr::Cut(line) => {
            let mut op = Op::Emit(Item::Cut { line: *line });
            tell(alloc, ObjectId::Out, &mut op, port)?;
        }
        Instr::Stop => {
            let mut op = Op::Stop;
            tell(alloc, ObjectId::Clock, &mut op, port)?;
        }
        Instr::Pop => {
            pop(&mut state.stack);
        }
    }
    Ok(())
}

/// Runs instructions one after another.
pub fn run_instrs<P: Port>(
    alloc: Global,
    view: &View<'_>,
    instrs: &[Instr],
    state: &mut State,
    port: &mut P,
) -> Result<(), Memory>
    requires ready { AreReady (P.fixed port.old).setting view.now instrs.now }
    requires can { MayAsk (P.fixed port.old).setting (instrs_run instrs.now (scene_in view.now) state.old) }
    ensures performed { Did (instrs_run instrs.now (scene_in view.now) state.old) (P.steps port.old) (P.steps port.new) result state.new }
    ensures kept { P.fixed port.new ≡ P.fixed port.old }
{
    for instr in instrs {
        run_instr(alloc, view, instr, state, port)?;
    }
    Ok(())
}
