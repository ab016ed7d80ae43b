// Single statements through a port.
ghost use Rattle.std.specs.Prelude.{◌≡◌, ◌≤◌, length, IfOk, IsTrue};
ghost use Rattle.bt_core.specs.Kinds.{HasShape};
ghost use Rattle.bt_core.specs.declared.map.MapKind.TheVariants as kinds;
ghost use Rattle.bt_core.specs.declared.limits.TheConstants.{KEY_PARTS as MOST_PARTS};
ghost use Rattle.typed_tree.specs.Parts.{made_of, num_parts, parts_in, key_shapes, set_var_parts, set_map_parts, update_var_parts, update_map_parts, gather_parts, number_parts, delete_parts};
ghost use Rattle.typed_tree.specs.Scope.{decl_of, is_there};
ghost use Rattle.walk_meaning.specs.Does.{in_order};
ghost use Rattle.walk_meaning.specs.Exprs.{value_does, values_do, number_does};
ghost use Rattle.walk_meaning.specs.Stmts.{set_variable, set_map, update_variable, update_map, update_at, gather, number_or_one, printf, print, clear, zero_all, delete_at, jump_to, cut, plain};
ghost use Rattle.bt_walk.specs.Walked.{Walked, WalkedAnywhere};
ghost use Rattle.walk_meaning.specs.Served.{IsServed, Fits, HoldsUnder, all_made, scene_in};
ghost use Rattle.walk_meaning.specs.declared.flow.Frame.{Frame as Kept};

use crate::access::{assign, delete, set, value_under, variable};
use crate::flow::next_after;
use crate::value::{number, value, values};
use crate::view::kind_in_body;
use bt_core::arithmetic::binary;
use bt_core::ending::Ending;
use bt_core::item::Item;
use bt_core::key::Key;
use bt_core::map::{AggKind, MapId};
use bt_core::memory::Memory;
use bt_core::operator::BinOp;
use bt_core::port::Port;
use bt_core::step::{ObjectId, Op};
use bt_core::value::Value;
use map_ops::access::tell;
use map_ops::printing::print_map;
use map_ops::sweep::{Sweep, ask_each};
use map_ops::values::number_of;
use std::alloc::Global;
use typed_tree::expr::{AnyExpr, NumExpr};
use typed_tree::stmt::Jump;
use walk_meaning::flow::{Flow, Frame};
use walk_meaning::view::View;

/// Evaluates the parts of a key.
fn key<P: Port>(
    alloc: Global,
    view: &View<'_>,
    keys: &[AnyExpr],
    frame: &mut Frame,
    port: &mut P,
) -> Result<Key, Memory>
    requires served { IsServed view.now (P.fixed port.old).setting }
    requires fits { Fits view.now (parts_in (all_made keys.now)) }
    requires few { length (key_shapes (all_made keys.now)) ≤ MOST_PARTS }
    ensures walked { Walked (in_order (values_do keys.now)) (scene_in view.now) frame.old (P.steps port.old) (P.steps port.new) result frame.new }
    ensures shaped { IfOk result (λ key. HasShape (key_shapes (all_made keys.now)) key) }
    ensures kept { P.fixed port.new ≡ P.fixed port.old }
    ensures turns { frame.new.turns ≡ frame.old.turns }
{
    let parts = values(alloc, view, keys, frame, port)?;
    Ok(Key::of(parts.into_vec()))
}

/// `$var = value`.
pub fn set_variable<P: Port>(
    alloc: Global,
    view: &View<'_>,
    var: u32,
    e: &AnyExpr,
    frame: &mut Frame,
    port: &mut P,
) -> Result<Flow, Memory>
    requires served { IsServed view.now (P.fixed port.old).setting }
    requires fits { Fits view.now (set_var_parts var (made_of e.now)) }
    ensures walked { Walked (set_variable var (value_does e.now)) (scene_in view.now) frame.old (P.steps port.old) (P.steps port.new) result frame.new }
    ensures kept { P.fixed port.new ≡ P.fixed port.old }
    ensures turns { frame.new.turns ≡ frame.old.turns }
{
    let value = value(alloc, view, e, frame, port)?;
    assign(var, value, frame);
    Ok(Flow::Next)
}

/// `map[keys] = value`.
pub fn set_map<P: Port>(
    alloc: Global,
    view: &View<'_>,
    map: MapId,
    keys: &[AnyExpr],
    e: &AnyExpr,
    frame: &mut Frame,
    port: &mut P,
) -> Result<Flow, Memory>
    requires served { IsServed view.now (P.fixed port.old).setting }
    requires fits { Fits view.now (set_map_parts map.0 (all_made keys.now) (made_of e.now)) }
    ensures walked { Walked (set_map map (values_do keys.now) (value_does e.now))
        (scene_in view.now) frame.old (P.steps port.old) (P.steps port.new) result frame.new }
    ensures kept { P.fixed port.new ≡ P.fixed port.old }
    ensures turns { frame.new.turns ≡ frame.old.turns }
{
    let key = key(alloc, view, keys, frame, port)?;
    let value = value(alloc, view, e, frame, port)?;
    next_after(set(alloc, map, key, value, port))
}

/// `$var op= value`.
pub fn update_variable<P: Port>(
    alloc: Global,
    view: &View<'_>,
    var: u32,
    op: BinOp,
    e: &NumExpr,
    frame: &mut Frame,
    port: &mut P,
) -> Result<Flow, Memory>
    requires served { IsServed view.now (P.fixed port.old).setting }
    requires fits { Fits view.now (update_var_parts op var (num_parts e.now)) }
    ensures walked { Walked (update_variable var op (number_does e.now))
        (scene_in view.now) frame.old (P.steps port.old) (P.steps port.new) result frame.new }
    ensures kept { P.fixed port.new ≡ P.fixed port.old }
    ensures turns { frame.new.turns ≡ frame.old.turns }
{
    let right = number(alloc, view, e, frame, port)?;
    let a = number_of(&variable(var, frame));
    let result = binary(op, a, right);
    assign(var, Value::Int(result), frame);
    Ok(Flow::Next)
}

/// `map[keys] op= value`.
pub fn update_map<P: Port>(
    alloc: Global,
    view: &View<'_>,
    map: MapId,
    keys: &[AnyExpr],
    op: BinOp,
    e: &NumExpr,
    frame: &mut Frame,
    port: &mut P,
) -> Result<Flow, Memory>
    requires served { IsServed view.now (P.fixed port.old).setting }
    requires fits { Fits view.now (update_map_parts op map.0 (all_made keys.now) (num_parts e.now)) }
    ensures walked { Walked (update_map map (values_do keys.now) op (number_does e.now))
        (scene_in view.now) frame.old (P.steps port.old) (P.steps port.new) result frame.new }
    ensures kept { P.fixed port.new ≡ P.fixed port.old }
    ensures turns { frame.new.turns ≡ frame.old.turns }
{
    let key = key(alloc, view, keys, frame, port)?;
    let b = number(alloc, view, e, frame, port)?;
    update_at(alloc, map, key, op, b, port)
}

/// Sets what an operator makes of the value under a key and a number.
fn update_at<P: Port>(
    alloc: Global,
    map: MapId,
    key: Key,
    op: BinOp,
    b: i64,
    port: &mut P,
) -> Result<Flow, Memory>
    requires { HoldsUnder (P.fixed port.old).setting map kinds.Ints key }
    ensures made { WalkedAnywhere (update_at map key op b) (P.steps port.old) (P.steps port.new) result }
    ensures kept { P.fixed port.new ≡ P.fixed port.old }
{
    let value = value_under(alloc, map, &key, port)?;
    let old = number_of(&value);
    let new = binary(op, old, b);
    next_after(set(alloc, map, key, Value::Int(new), port))
}

/// `map[keys] = sum(number)` and the like. `count()` has no number, and takes in 1.
pub fn gather<P: Port>(
    alloc: Global,
    view: &View<'_>,
    map: MapId,
    keys: &[AnyExpr],
    kind: AggKind,
    number: &Option<NumExpr>,
    frame: &mut Frame,
    port: &mut P,
) -> Result<Flow, Memory>
    requires served { IsServed view.now (P.fixed port.old).setting }
    requires fits { Fits view.now (gather_parts map.0 (all_made keys.now) kind number.now) }
    ensures walked { Walked (gather map (values_do keys.now) (number_or_one number.now))
        (scene_in view.now) frame.old (P.steps port.old) (P.steps port.new) result frame.new }
    ensures kept { P.fixed port.new ≡ P.fixed port.old }
    ensures turns { frame.new.turns ≡ frame.old.turns }
{
    let key = key(alloc, view, keys, frame, port)?;
    let n = number_or_one(alloc, view, number, frame, port)?;
    let mut op = Op::Add(map, key, n);
    let added = tell(alloc, ObjectId::Cpu(view.actor), &mut op, port);
    next_after(added)
}

/// The number that an aggregation takes in.
fn number_or_one<P: Port>(
    alloc: Global,
    view: &View<'_>,
    e: &Option<NumExpr>,
    frame: &mut Frame,
    port: &mut P,
) -> Result<i64, Memory>
    requires served { IsServed view.now (P.fixed port.old).setting }
    requires fits { Fits view.now (number_parts e.now) }
    ensures walked { Walked (number_or_one e.now) (scene_in view.now) frame.old (P.steps port.old) (P.steps port.new) result frame.new }
    ensures kept { P.fixed port.new ≡ P.fixed port.old }
    ensures turns { frame.new.turns ≡ frame.old.turns }
{
    match e {
        Some(e) => number(alloc, view, e, frame, port),
        None => Ok(1),
    }
}

/// A statement that is an expression, whose value is dropped.
pub fn step<P: Port>(
    alloc: Global,
    view: &View<'_>,
    e: &NumExpr,
    frame: &mut Frame,
    port: &mut P,
) -> Result<Flow, Memory>
    requires served { IsServed view.now (P.fixed port.old).setting }
    requires fits { Fits view.now (num_parts e.now) }
    ensures walked { Walked (plain (number_does e.now)) (scene_in view.now) frame.old (P.steps port.old) (P.steps port.new) result frame.new }
    ensures kept { P.fixed port.new ≡ P.fixed port.old }
    ensures turns { frame.new.turns ≡ frame.old.turns }
{
    number(alloc, view, e, frame, port)?;
    Ok(Flow::Next)
}

/// `printf(format, values)`.
pub fn printf<P: Port>(
    alloc: Global,
    view: &View<'_>,
    format: u32,
    es: &[AnyExpr],
    frame: &mut Frame,
    port: &mut P,
) -> Result<Flow, Memory>
    requires served { IsServed view.now (P.fixed port.old).setting }
    requires fits { Fits view.now (parts_in (all_made es.now)) }
    ensures walked { Walked (printf format (values_do es.now)) (scene_in view.now) frame.old (P.steps port.old) (P.steps port.new) result frame.new }
    ensures kept { P.fixed port.new ≡ P.fixed port.old }
    ensures turns { frame.new.turns ≡ frame.old.turns }
{
    let values = values(alloc, view, es, frame, port)?;
    let mut op = Op::Emit(Item::Printf { format, values });
    next_after(tell(alloc, ObjectId::Out, &mut op, port))
}

/// `print(map, top, div)`: one item with the merged rows of all objects that hold the map, also where there are none.
pub fn print<P: Port>(
    alloc: Global,
    view: &View<'_>,
    map: MapId,
    top: u64,
    div: i64,
    port: &mut P,
) -> Result<Flow, Memory>
    requires served { IsServed view.now (P.fixed port.old).setting }
    requires named { IsTrue (is_there (decl_of map.0 view.now.body.now.maps)) }
    ensures walked { (frame : Kept) → Walked (print map top div) (scene_in view.now) frame (P.steps port.old) (P.steps port.new) result frame }
    ensures kept { P.fixed port.new ≡ P.fixed port.old }
{
    let kind = kind_in_body(map, view.body.maps.as_slice());
    let printed = print_map(alloc, kind, map, top, div, view.actors, port);
    next_after(printed)
}

/// `clear(map)`.
pub fn clear<P: Port>(
    alloc: Global,
    view: &View<'_>,
    map: MapId,
    port: &mut P,
) -> Result<Flow, Memory>
    requires served { IsServed view.now (P.fixed port.old).setting }
    requires named { IsTrue (is_there (decl_of map.0 view.now.body.now.maps)) }
    ensures walked { (frame : Kept) → Walked (clear map) (scene_in view.now) frame (P.steps port.old) (P.steps port.new) result frame }
    ensures kept { P.fixed port.new ≡ P.fixed port.old }
{
    let kind = kind_in_body(map, view.body.maps.as_slice());
    ask_each(alloc, Sweep::Clear, kind, map, view.actors, port)?;
    Ok(Flow::Next)
}

/// `zero(map)`.
pub fn zero<P: Port>(
    alloc: Global,
    view: &View<'_>,
    map: MapId,
    port: &mut P,
) -> Result<Flow, Memory>
    requires served { IsServed view.now (P.fixed port.old).setting }
    requires named { IsTrue (is_there (decl_of map.0 view.now.body.now.maps)) }
    ensures walked { (frame : Kept) → Walked (zero_all map) (scene_in view.now) frame (P.steps port.old) (P.steps port.new) result frame }
    ensures kept { P.fixed port.new ≡ P.fixed port.old }
{
    let kind = kind_in_body(map, view.body.maps.as_slice());
    ask_each(alloc, Sweep::Zero, kind, map, view.actors, port)?;
    Ok(Flow::Next)
}

/// `delete(map[keys])`.
pub fn delete_at<P: Port>(
    alloc: Global,
    view: &View<'_>,
    map: MapId,
    keys: &[AnyExpr],
    frame: &mut Frame,
    port: &mut P,
) -> Result<Flow, Memory>
    requires served { IsServed view.now (P.fixed port.old).setting }
    requires fits { Fits view.now (delete_parts map.0 (all_made keys.now)) }
    ensures walked { Walked (delete_at map (values_do keys.now)) (scene_in view.now) frame.old (P.steps port.old) (P.steps port.new) result frame.new }
    ensures kept { P.fixed port.new ≡ P.fixed port.old }
    ensures turns { frame.new.turns ≡ frame.old.turns }
{
    let key = key(alloc, view, keys, frame, port)?;
    next_after(delete(alloc, map, key, port))
}

/// `break`, `continue`, `exit()` and `return`.
pub fn jump<P: Port>(alloc: Global, jump: Jump, port: &mut P) -> Result<Flow, Memory>
    ensures made { WalkedAnywhere (jump_to jump) (P.steps port.old) (P.steps port.new) result }
    ensures kept { P.fixed port.new ≡ P.fixed port.old }
{
    match jump {
        Jump::Break => Ok(Flow::Break),
        Jump::Continue => Ok(Flow::Continue),
        Jump::Exit => {
            let mut op = Op::Stop;
            tell(alloc, ObjectId::Clock, &mut op, port)?;
            Ok(Flow::Stop(Ending::Exit))
        }
        Jump::Return => Ok(Flow::Stop(Ending::Return)),
    }
}

/// Emits the line of a loop whose next turn is not made.
pub fn cut<P: Port>(alloc: Global, line: u32, port: &mut P) -> Result<Flow, Memory>
    ensures made { WalkedAnywhere (cut line) (P.steps port.old) (P.steps port.new) result }
    ensures stops { IfOk result (λ flow. flow ≡ Flow.Stop Ending.Cut) }
    ensures kept { P.fixed port.new ≡ P.fixed port.old }
{
    let mut op = Op::Emit(Item::Cut { line });
    tell(alloc, ObjectId::Out, &mut op, port)?;
    Ok(Flow::Stop(Ending::Cut))
}
