// Variables, and changes of maps under a key.
ghost use Rattle.std.specs.Prelude.{◌≡◌};
ghost use Rattle.bt_core.specs.Arithmetic.{truth};
ghost use Rattle.bt_core.specs.declared.step.Op.TheVariants as ops;
ghost use Rattle.bt_core.specs.Ports.{CanStep};
ghost use Rattle.map_ops.specs.Holders.{part};
ghost use Rattle.walk_meaning.specs.Maps.{variable, with_variable, get, set, delete};
ghost use Rattle.bt_walk.specs.Walked.{WalkedAnywhere};

use bt_core::key::Key;
use bt_core::map::MapId;
use bt_core::memory::{Memory, TryCopy};
use bt_core::port::Port;
use bt_core::step::Op;
use bt_core::value::Value;
use map_ops::access::{get, part, tell};
use std::alloc::Global;
use walk_meaning::flow::Frame;

/// 1 or 0.
pub fn truth(flag: bool) -> i64
    ensures { result ≡ truth flag }
{
    if flag { 1 } else { 0 }
}

/// A variable by its number.
pub fn variable(number: u32, frame: &Frame) -> Value
    ensures { result ≡ variable number frame.now }
{
    match frame.variables.get(number as usize) {
        Some(value) => value.copy(),
        None => Value::Int(0),
    }
}

/// Sets a variable, where there is one of this number.
pub fn assign(number: u32, value: Value, frame: &mut Frame)
    ensures { frame.new ≡ with_variable number value frame.old }
{
    let place = number as usize;
    if place < frame.variables.len() {
        frame.variables.set(place, value);
    }
}

/// The value of a map under a key that is kept.
pub fn value_under<P: Port>(
    alloc: Global,
    map: MapId,
    key: &Key,
    port: &mut P,
) -> Result<Value, Memory>
    requires { CanStep (P.fixed port.old).setting (part map key.now) (ops.Get key.now) }
    ensures made { WalkedAnywhere (get map key.now) (P.steps port.old) (P.steps port.new) result }
    ensures kept { P.fixed port.new ≡ P.fixed port.old }
{
    let again = key.try_copy(alloc)?;
    get(alloc, map, again, port)
}

/// Sets the value of a map under a key.
pub fn set<P: Port>(
    alloc: Global,
    map: MapId,
    key: Key,
    value: Value,
    port: &mut P,
) -> Result<(), Memory>
    requires { CanStep (P.fixed port.old).setting (part map key) (ops.Set key value) }
    ensures made { WalkedAnywhere (set map key value) (P.steps port.old) (P.steps port.new) result }
    ensures kept { P.fixed port.new ≡ P.fixed port.old }
{
    let object = part(map, &key);
    let mut op = Op::Set(key, value);
    tell(alloc, object, &mut op, port)
}

/// Takes a key of a map away.
pub fn delete<P: Port>(alloc: Global, map: MapId, key: Key, port: &mut P) -> Result<(), Memory>
    requires { CanStep (P.fixed port.old).setting (part map key) (ops.Delete key) }
    ensures made { WalkedAnywhere (delete map key) (P.steps port.old) (P.steps port.new) result }
    ensures kept { P.fixed port.new ≡ P.fixed port.old }
{
    let object = part(map, &key);
    let mut op = Op::Delete(key);
    tell(alloc, object, &mut op, port)
}
