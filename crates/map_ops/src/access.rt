// Single operations on maps.
ghost use Rattle.std.specs.Prelude.{◌≡◌, IfOk};
ghost use Rattle.bt_core.specs.declared.step.Op.TheVariants as ops;
ghost use Rattle.bt_core.specs.Interaction.{Performed};
ghost use Rattle.bt_core.specs.Kinds.{IsOfKind};
ghost use Rattle.bt_core.specs.Ports.{CanStep, Serves};
ghost use Rattle.map_ops.specs.Asking.{tells, got};
ghost use Rattle.map_ops.specs.Holders.{part};

use crate::values::value_of;
use bt_core::encoding::part_of;
use bt_core::key::Key;
use bt_core::map::MapId;
use bt_core::memory::Memory;
use bt_core::port::Port;
use bt_core::step::{ObjectId, Op};
use bt_core::value::Value;
use std::alloc::Global;

/// The part of a shared map that a key is in.
pub fn part(map: MapId, key: &Key) -> ObjectId
    ensures { result ≡ part map key.now }
{
    ObjectId::Shared {
        map,
        part: part_of(key),
    }
}

/// Makes a step whose reply says nothing. What the step has to keep of the operation is taken out of it, so nothing is said of the
/// operation behind it. [`Memory`] where there is no room for the step.
#[tactic(auto, using(bt_core::proofs::InteractionLaws::composing))]
pub fn tell<P: Port>(
    alloc: Global,
    object: ObjectId,
    op: &mut Op,
    port: &mut P,
) -> Result<(), Memory>
    requires { CanStep (P.fixed port.old).setting object op.old }
    ensures performed { Performed (tells object op.old) (P.steps port.old) (P.steps port.new) result }
    ensures kept { P.fixed port.new ≡ P.fixed port.old }
{
    port.step(alloc, object, op)?;
    Ok(())
}

/// The value of a map under a key, which is one that the map can hold.
pub fn get<P: Port>(alloc: Global, map: MapId, key: Key, port: &mut P) -> Result<Value, Memory>
    requires { CanStep (P.fixed port.old).setting (part map key) (ops.Get key) }
    ensures performed { Performed (got map key) (P.steps port.old) (P.steps port.new) result }
    ensures held { IfOk result (λ value. Serves (P.fixed port.old).setting.maps map (λ decl. IsOfKind decl.kind value)) }
    ensures kept { P.fixed port.new ≡ P.fixed port.old }
{
    let object = part(map, &key);
    let mut op = Op::Get(key);
    port.step(alloc, object, &mut op)?;
    Ok(value_of(port.last()))
}
