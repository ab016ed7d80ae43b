// What helpers ask of maps.
ghost use Rattle.std.specs.Prelude.{◌≡◌, IsTrue};
ghost use Rattle.bt_core.specs.declared.step.Op.TheVariants as ops;
ghost use Rattle.bt_core.specs.Kinds.{IsAggregation};
ghost use Rattle.bt_core.specs.Ports.{CanStep};
ghost use Rattle.bpf_insn.specs.Regions.{is_in_frame};
ghost use Rattle.bpf_interp.specs.Running.{Called};
ghost use Rattle.map_ops.specs.Holders.{part, CanSweep};
ghost use Rattle.helper_abi.specs.Served.{HasRoom};
ghost use Rattle.helper_abi.specs.Steps.{frame_kept, got_into, summed_into};
ghost use Rattle.map_ops.specs.Asking.{tells};

use crate::reading::put;
use bpf_interp::helper_calls::HelperFault;
use bpf_interp::regions::Regions;
use bt_core::key::Key;
use bt_core::map::{MapId, MapKind};
use bt_core::port::Port;
use bt_core::step::{ObjectId, Op};
use bt_core::value::Value;
use map_ops::access;
use map_ops::summing::sum_under;
use std::alloc::Global;

/// Makes a step whose reply says nothing. What the step has to keep of the operation is taken out of it, so nothing is said of the
/// operation behind it. [`HelperFault::Memory`] where there is no room for the step.
pub fn tell<P: Port>(
    alloc: Global,
    port: &mut P,
    object: ObjectId,
    op: &mut Op,
    memory: &Regions,
) -> Result<u64, HelperFault>
    requires { CanStep (P.fixed port.old).setting object op.old }
    ensures called { Called (frame_kept memory.now (tells object op.old)) (P.steps port.old) (P.steps port.new) result memory.now.frame }
    ensures kept { P.fixed port.new ≡ P.fixed port.old }
{
    match access::tell(alloc, object, op, port) {
        Ok(()) => Ok(0),
        Err(want) => Err(HelperFault::Memory(want)),
    }
}

/// Reads the value of a map under a key, and writes it into the frame, which has room for it.
pub fn get_into<P: Port>(
    alloc: Global,
    port: &mut P,
    map: MapId,
    key: Key,
    to: u64,
    memory: &mut Regions,
) -> Result<u64, HelperFault>
    requires can { CanStep (P.fixed port.old).setting (part map key) (ops.Get key) }
    requires room { HasRoom (P.fixed port.old).setting map to }
    ensures called { Called (got_into memory.old map key to) (P.steps port.old) (P.steps port.new) result memory.new.frame }
    ensures kept { P.fixed port.new ≡ P.fixed port.old }
    ensures context { memory.new.context ≡ memory.old.context }
    ensures payload { memory.new.payload ≡ memory.old.payload }
{
    match access::get(alloc, map, key, port) {
        Ok(value) => {
            put(memory, to, &value);
            Ok(0)
        }
        Err(want) => Err(HelperFault::Memory(want)),
    }
}

/// Reads the number of an aggregation under a key, and writes it into the frame, which has room for it.
pub fn sum_into<P: Port>(
    alloc: Global,
    port: &mut P,
    kind: MapKind,
    map: MapId,
    key: &Key,
    to: u64,
    actors: u32,
    memory: &mut Regions,
) -> Result<u64, HelperFault>
    requires can { CanSweep (P.fixed port.old).setting map kind actors }
    requires gathers { IsAggregation kind }
    requires room { IsTrue (is_in_frame to 8) }
    ensures called { Called (summed_into memory.old map key.now to actors) (P.steps port.old) (P.steps port.new) result memory.new.frame }
    ensures kept { P.fixed port.new ≡ P.fixed port.old }
    ensures context { memory.new.context ≡ memory.old.context }
    ensures payload { memory.new.payload ≡ memory.old.payload }
{
    match sum_under(alloc, kind, map, key, actors, port) {
        Ok(number) => {
            put(memory, to, &Value::Int(number));
            Ok(0)
        }
        Err(want) => Err(HelperFault::Memory(want)),
    }
}
