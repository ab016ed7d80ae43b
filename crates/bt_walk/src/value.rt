// The evaluation of expressions through a port.
ghost use Rattle.std.specs.Prelude.{◌≡◌, ◌≤◌, length, cond, not, Err, IfOk, IsTrue, MatchResult, Ok};
ghost use Rattle.std.specs.Str.{bytes_eq};
ghost use Rattle.bt_core.specs.declared.map.MapKind.TheVariants as kinds;
ghost use Rattle.bt_core.specs.declared.value.Value.TheVariants as values;
ghost use Rattle.bt_core.specs.Kinds.{HasShape, IsOfShape, IsAggregation};
ghost use Rattle.typed_tree.specs.declared.expr.NumExpr.TheVariants as nums;
ghost use Rattle.typed_tree.specs.Parts.{made_of, num_parts, str_parts, parts_in, key_shapes};
ghost use Rattle.walk_meaning.specs.Exprs.{value_does, values_do, number_does, text_does, step_at, read, read_agg};
ghost use Rattle.typed_tree.specs.Scope.{decl_of, is_summed, is_there};
ghost use Rattle.map_ops.specs.Values.{next, number_of};
ghost use Rattle.walk_meaning.specs.declared.flow.Frame.{Frame as Kept};
ghost use Rattle.walk_meaning.specs.Maps.{kind_in_body, sum_at, variable, with_variable};
ghost use Rattle.walk_meaning.specs.Does.{in_order};
ghost use Rattle.bt_walk.specs.Walked.{Walked, WalkedAnywhere};
ghost use Rattle.walk_meaning.specs.Served.{all_made, IsServed, Fits, NamesShared, HoldsUnder, scene_in};

use crate::access::{assign, set, truth, value_under, variable};
use crate::view::kind_in_body;
use bt_core::arithmetic::{binary, unary};
use bt_core::boxed::Boxed;
use bt_core::items::Items;
use bt_core::key::Key;
use bt_core::map::MapId;
use bt_core::memory::Memory;
use bt_core::operator::BinOp;
use bt_core::port::Port;
use bt_core::text::Str64;
use bt_core::value::Value;
use event_record::reading::{int_field, str_field};
use map_ops::access::get;
use map_ops::builtin::builtin_value;
use map_ops::summing::sum_under;
use map_ops::values::{holds, next, number_of, text_of};
use std::alloc::Global;
use typed_tree::expr::{AnyExpr, NumExpr, StrExpr};
use walk_meaning::flow::Frame;
use walk_meaning::view::View;

/// Evaluates an expression.
#[cycle(value)]
pub fn value<P: Port>(
    alloc: Global,
    view: &View<'_>,
    e: &AnyExpr,
    frame: &mut Frame,
    port: &mut P,
) -> Result<Value, Memory>
    requires served { IsServed view.now (P.fixed port.old).setting }
    requires fits { Fits view.now (made_of e.now).parts }
    ensures walked { Walked (value_does e.now) (scene_in view.now) frame.old (P.steps port.old) (P.steps port.new) result frame.new }
    ensures shaped { IfOk result (λ value. IsOfShape (made_of e.now).shape value) }
    ensures kept { P.fixed port.new ≡ P.fixed port.old }
    ensures turns { frame.new.turns ≡ frame.old.turns }
{
    match e {
        AnyExpr::Num(e) => {
            let n = number(alloc, view, e, frame, port)?;
            Ok(Value::Int(n))
        }
        AnyExpr::Str(e) => {
            let s = text(alloc, view, e, frame, port)?;
            Ok(Value::Str(s))
        }
    }
}

/// Evaluates a whole number.
#[cycle(value)]
pub fn number<P: Port>(
    alloc: Global,
    view: &View<'_>,
    e: &NumExpr,
    frame: &mut Frame,
    port: &mut P,
) -> Result<i64, Memory>
    requires served { IsServed view.now (P.fixed port.old).setting }
    requires fits { Fits view.now (num_parts e.now) }
    ensures walked { Walked (number_does e.now) (scene_in view.now) frame.old (P.steps port.old) (P.steps port.new) result frame.new }
    ensures kept { P.fixed port.new ≡ P.fixed port.old }
    ensures turns { frame.new.turns ≡ frame.old.turns }
{
    match e {
        NumExpr::Number(n) => Ok(*n),
        NumExpr::Builtin(b) => Ok(builtin_value(*b, view.context)),
        NumExpr::Field(f) => Ok(int_field(f, view.payload)),
        NumExpr::Var(x) => Ok(number_of(&variable(*x, frame))),
        NumExpr::Map { map, keys } => {
            let read = read(alloc, view, *map, keys.as_slice(), frame, port)?;
            Ok(number_of(&read))
        }
        NumExpr::Agg { map, keys } => read_agg(alloc, view, *map, keys.as_slice(), frame, port),
        NumExpr::StepVar { var, plus, prefix } => Ok(step_variable(*var, *plus, *prefix, frame)),
        NumExpr::StepMap {
            map,
            keys,
            plus,
            prefix,
        } => {
            let parts = values(alloc, view, keys.as_slice(), frame, port)?;
            let key = Key::of(parts.into_vec());
            step_map(alloc, *map, key, *plus, *prefix, port)
        }
        NumExpr::Unary { op, value } => {
            let a = number(alloc, view, value.get(), frame, port)?;
            Ok(unary(*op, a))
        }
        NumExpr::Binary { op, left, right } => {
            number_binary(alloc, view, *op, left, right, frame, port)
        }
        NumExpr::Compare { equal, left, right } => {
            number_compare(alloc, view, *equal, left, right, frame, port)
        }
        NumExpr::AndThen { left, right } => number_and(alloc, view, left, right, frame, port),
        NumExpr::OrElse { left, right } => number_or(alloc, view, left, right, frame, port),
        NumExpr::Choose { condition, yes, no } => {
            number_choose(alloc, view, condition, yes, no, frame, port)
        }
    }
}

/// Evaluates two whole numbers with an operator between them.
#[cycle(value)]
fn number_binary<P: Port>(
    alloc: Global,
    view: &View<'_>,
    op: BinOp,
    left: &Boxed<NumExpr>,
    right: &Boxed<NumExpr>,
    frame: &mut Frame,
    port: &mut P,
) -> Result<i64, Memory>
    requires served { IsServed view.now (P.fixed port.old).setting }
    requires fits { Fits view.now (num_parts (nums.Binary op left.now right.now)) }
    ensures walked { Walked (number_does (nums.Binary op left.now right.now)) (scene_in view.now) frame.old (P.steps port.old) (P.steps port.new) result frame.new }
    ensures kept { P.fixed port.new ≡ P.fixed port.old }
    ensures turns { frame.new.turns ≡ frame.old.turns }
{
    let a = number(alloc, view, left.get(), frame, port)?;
    let b = number(alloc, view, right.get(), frame, port)?;
    Ok(binary(op, a, b))
}

/// Evaluates two strings that are compared.
#[cycle(value)]
fn number_compare<P: Port>(
    alloc: Global,
    view: &View<'_>,
    equal: bool,
    left: &Boxed<StrExpr>,
    right: &Boxed<StrExpr>,
    frame: &mut Frame,
    port: &mut P,
) -> Result<i64, Memory>
    requires served { IsServed view.now (P.fixed port.old).setting }
    requires fits { Fits view.now (num_parts (nums.Compare equal left.now right.now)) }
    ensures walked { Walked (number_does (nums.Compare equal left.now right.now)) (scene_in view.now) frame.old (P.steps port.old) (P.steps port.new) result frame.new }
    ensures kept { P.fixed port.new ≡ P.fixed port.old }
    ensures turns { frame.new.turns ≡ frame.old.turns }
{
    let a = text(alloc, view, left.get(), frame, port)?;
    let b = text(alloc, view, right.get(), frame, port)?;
    Ok(truth(compared(equal, &a, &b)))
}

/// Evaluates `left && right`.
#[cycle(value)]
fn number_and<P: Port>(
    alloc: Global,
    view: &View<'_>,
    left: &Boxed<NumExpr>,
    right: &Boxed<NumExpr>,
    frame: &mut Frame,
    port: &mut P,
) -> Result<i64, Memory>
    requires served { IsServed view.now (P.fixed port.old).setting }
    requires fits { Fits view.now (num_parts (nums.AndThen left.now right.now)) }
    ensures walked { Walked (number_does (nums.AndThen left.now right.now)) (scene_in view.now) frame.old (P.steps port.old) (P.steps port.new) result frame.new }
    ensures kept { P.fixed port.new ≡ P.fixed port.old }
    ensures turns { frame.new.turns ≡ frame.old.turns }
{
    let a = number(alloc, view, left.get(), frame, port)?;
    if holds(a) {
        let b = number(alloc, view, right.get(), frame, port)?;
        Ok(truth(holds(b)))
    } else {
        Ok(0)
    }
}

/// Evaluates `left || right`.
#[cycle(value)]
fn number_or<P: Port>(
    alloc: Global,
    view: &View<'_>,
    left: &Boxed<NumExpr>,
    right: &Boxed<NumExpr>,
    frame: &mut Frame,
    port: &mut P,
) -> Result<i64, Memory>
    requires served { IsServed view.now (P.fixed port.old).setting }
    requires fits { Fits view.now (num_parts (nums.OrElse left.now right.now)) }
    ensures walked { Walked (number_does (nums.OrElse left.now right.now)) (scene_in view.now) frame.old (P.steps port.old) (P.steps port.new) result frame.new }
    ensures kept { P.fixed port.new ≡ P.fixed port.old }
    ensures turns { frame.new.turns ≡ frame.old.turns }
{
    let a = number(alloc, view, left.get(), frame, port)?;
    if holds(a) {
        Ok(1)
    } else {
        let b = number(alloc, view, right.get(), frame, port)?;
        Ok(truth(holds(b)))
    }
}

/// Evaluates `condition ? yes : no` of whole numbers.
#[cycle(value)]
fn number_choose<P: Port>(
    alloc: Global,
    view: &View<'_>,
    condition: &Boxed<NumExpr>,
    yes: &Boxed<NumExpr>,
    no: &Boxed<NumExpr>,
    frame: &mut Frame,
    port: &mut P,
) -> Result<i64, Memory>
    requires served { IsServed view.now (P.fixed port.old).setting }
    requires fits { Fits view.now (num_parts (nums.Choose condition.now yes.now no.now)) }
    ensures walked { Walked (number_does (nums.Choose condition.now yes.now no.now)) (scene_in view.now) frame.old (P.steps port.old) (P.steps port.new) result frame.new }
    ensures kept { P.fixed port.new ≡ P.fixed port.old }
    ensures turns { frame.new.turns ≡ frame.old.turns }
{
    let test = number(alloc, view, condition.get(), frame, port)?;
    if holds(test) {
        number(alloc, view, yes.get(), frame, port)
    } else {
        number(alloc, view, no.get(), frame, port)
    }
}

/// Evaluates a string.
#[cycle(value)]
pub fn text<P: Port>(
    alloc: Global,
    view: &View<'_>,
    e: &StrExpr,
    frame: &mut Frame,
    port: &mut P,
) -> Result<Str64, Memory>
    requires served { IsServed view.now (P.fixed port.old).setting }
    requires fits { Fits view.now (str_parts e.now) }
    ensures walked { Walked (text_does e.now) (scene_in view.now) frame.old (P.steps port.old) (P.steps port.new) result frame.new }
    ensures kept { P.fixed port.new ≡ P.fixed port.old }
    ensures turns { frame.new.turns ≡ frame.old.turns }
{
    match e {
        StrExpr::Text(s) => Ok(s.copy()),
        StrExpr::Comm => Ok(view.context.comm.copy()),
        StrExpr::Field(f) => Ok(str_field(f, view.payload)),
        StrExpr::Var(x) => Ok(text_of(&variable(*x, frame))),
        StrExpr::Map { map, keys } => {
            let read = read(alloc, view, *map, keys.as_slice(), frame, port)?;
            Ok(text_of(&read))
        }
        StrExpr::Choose { condition, yes, no } => {
            let test = number(alloc, view, condition.get(), frame, port)?;
            if holds(test) {
                text(alloc, view, yes.get(), frame, port)
            } else {
                text(alloc, view, no.get(), frame, port)
            }
        }
    }
}

/// The value of a map under a key that is evaluated first.
#[cycle(value)]
fn read<P: Port>(
    alloc: Global,
    view: &View<'_>,
    map: MapId,
    keys: &[AnyExpr],
    frame: &mut Frame,
    port: &mut P,
) -> Result<Value, Memory>
    requires served { IsServed view.now (P.fixed port.old).setting }
    requires fits { Fits view.now (parts_in (all_made keys.now)) }
    requires declared { NamesShared view.now map (key_shapes (all_made keys.now)) }
    ensures walked { Walked (read map (values_do keys.now)) (scene_in view.now) frame.old (P.steps port.old) (P.steps port.new) result frame.new }
    ensures kept { P.fixed port.new ≡ P.fixed port.old }
    ensures turns { frame.new.turns ≡ frame.old.turns }
{
    let parts = values(alloc, view, keys, frame, port)?;
    let key = Key::of(parts.into_vec());
    get(alloc, map, key, port)
}

/// The number of an aggregation under a key that is evaluated first.
#[cycle(value)]
fn read_agg<P: Port>(
    alloc: Global,
    view: &View<'_>,
    map: MapId,
    keys: &[AnyExpr],
    frame: &mut Frame,
    port: &mut P,
) -> Result<i64, Memory>
    requires served { IsServed view.now (P.fixed port.old).setting }
    requires fits { Fits view.now (parts_in (all_made keys.now)) }
    requires declared { IsTrue (is_summed (decl_of map.0 view.now.body.now.maps) (key_shapes (all_made keys.now))) }
    ensures walked { Walked (read_agg map (values_do keys.now)) (scene_in view.now) frame.old (P.steps port.old) (P.steps port.new) result frame.new }
    ensures kept { P.fixed port.new ≡ P.fixed port.old }
    ensures turns { frame.new.turns ≡ frame.old.turns }
{
    let parts = values(alloc, view, keys, frame, port)?;
    let key = Key::of(parts.into_vec());
    sum_at(alloc, view, map, &key, port)
}

/// Evaluates expressions from left to right.
#[cycle(value)]
pub fn values<P: Port>(
    alloc: Global,
    view: &View<'_>,
    keys: &[AnyExpr],
    frame: &mut Frame,
    port: &mut P,
) -> Result<Items<Value>, Memory>
    requires served { IsServed view.now (P.fixed port.old).setting }
    requires fits { Fits view.now (parts_in (all_made keys.now)) }
    ensures walked { Walked (in_order (values_do keys.now)) (scene_in view.now) frame.old (P.steps port.old) (P.steps port.new) result frame.new }
    ensures shaped { IfOk result (λ values. HasShape (key_shapes (all_made keys.now)) values) }
    ensures kept { P.fixed port.new ≡ P.fixed port.old }
    ensures turns { frame.new.turns ≡ frame.old.turns }
{
    let mut parts = Items::new(alloc);
    for key in keys {
        let part = value(alloc, view, key, frame, port)?;
        parts.push(part)?;
    }
    Ok(parts)
}

/// Whether two strings are equal, or whether they differ.
fn compared(equal: bool, a: &Str64, b: &Str64) -> bool
    ensures { result ≡ cond equal (bytes_eq a.now b.now) (not (bytes_eq a.now b.now)) }
{
    let same = a.bytes() == b.bytes();
    if equal { same } else { !same }
}

/// What a step gives: the new value as a prefix, and else the old one.
fn stepped(prefix: bool, new: i64, old: i64) -> i64
    ensures { result ≡ cond prefix new old }
{
    if prefix { new } else { old }
}

/// The number that something gives once it was done, or none for want of memory.
fn number_after(done: Result<(), Memory>, number: i64) -> Result<i64, Memory>
    ensures { MatchResult done (λ _. result ≡ Ok number) (λ error. result ≡ Err error) }
{
    match done {
        Ok(()) => Ok(number),
        Err(error) => Err(error),
    }
}

/// Steps a variable, and gives its new value or its old one.
fn step_variable(var: u32, plus: bool, prefix: bool, frame: &mut Frame) -> i64
    ensures value { result ≡ cond prefix (next plus (number_of (variable var frame.old))) (number_of (variable var frame.old)) }
    ensures frame { frame.new ≡ with_variable var (values.Int (next plus (number_of (variable var frame.old)))) frame.old }
{
    let old = number_of(&variable(var, frame));
    let new = next(plus, old);
    assign(var, Value::Int(new), frame);
    stepped(prefix, new, old)
}

/// The number of an aggregation under a key, over the tables of all actors.
fn sum_at<P: Port>(
    alloc: Global,
    view: &View<'_>,
    map: MapId,
    key: &Key,
    port: &mut P,
) -> Result<i64, Memory>
    requires served { IsServed view.now (P.fixed port.old).setting }
    requires named { IsTrue (is_there (decl_of map.0 view.now.body.now.maps)) }
    requires gathers { IsAggregation (kind_in_body map view.now.body.now.maps) }
    ensures walked { (frame : Kept) → Walked (sum_at map key.now) (scene_in view.now) frame (P.steps port.old) (P.steps port.new) result frame }
    ensures kept { P.fixed port.new ≡ P.fixed port.old }
{
    let kind = kind_in_body(map, view.body.maps.as_slice());
    sum_under(alloc, kind, map, key, view.actors, port)
}

/// Steps the value of a map under a key, and gives the new one or the old one.
fn step_map<P: Port>(
    alloc: Global,
    map: MapId,
    key: Key,
    plus: bool,
    prefix: bool,
    port: &mut P,
) -> Result<i64, Memory>
    requires { HoldsUnder (P.fixed port.old).setting map kinds.Ints key }
    ensures made { WalkedAnywhere (step_at map key plus prefix) (P.steps port.old) (P.steps port.new) result }
    ensures kept { P.fixed port.new ≡ P.fixed port.old }
{
    let value = value_under(alloc, map, &key, port)?;
    let old = number_of(&value);
    let new = next(plus, old);
    let set = set(alloc, map, key, Value::Int(new), port);
    number_after(set, stepped(prefix, new, old))
}
