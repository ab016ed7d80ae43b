// Helpers that work on whole maps.
ghost use Rattle.std.specs.Prelude.{◌≡◌};
ghost use Rattle.bpf_interp.specs.Running.{Called};
ghost use Rattle.map_ops.specs.Holders.{CanSweep};
ghost use Rattle.helper_abi.specs.Steps.{frame_kept};
ghost use Rattle.map_ops.specs.Asking.{printed, swept};

use bpf_interp::helper_calls::HelperFault;
use bpf_interp::regions::Regions;
use bt_core::map::{MapId, MapKind};
use bt_core::port::Port;
use map_ops::printing;
use map_ops::sweep::{Sweep, ask_each};
use std::alloc::Global;

/// Reads all objects that hold a map and emits its merged rows.
pub fn print_map<P: Port>(
    alloc: Global,
    port: &mut P,
    kind: MapKind,
    map: MapId,
    top: u64,
    div: i64,
    actors: u32,
    memory: &Regions,
) -> Result<u64, HelperFault>
    requires { CanSweep (P.fixed port.old).setting map kind actors }
    ensures called { Called (frame_kept memory.now (printed kind map top div actors))
        (P.steps port.old) (P.steps port.new) result memory.now.frame }
    ensures kept { P.fixed port.new ≡ P.fixed port.old }
{
    match printing::print_map(alloc, kind, map, top, div, actors, port) {
        Ok(()) => Ok(0),
        Err(want) => Err(HelperFault::Memory(want)),
    }
}

/// Clears all objects that hold a map, or makes their values 0 or empty.
pub fn sweep_all<P: Port>(
    alloc: Global,
    port: &mut P,
    sweep: Sweep,
    kind: MapKind,
    map: MapId,
    actors: u32,
    memory: &Regions,
) -> Result<u64, HelperFault>
    requires { CanSweep (P.fixed port.old).setting map kind actors }
    ensures called { Called (frame_kept memory.now (swept sweep kind map actors))
        (P.steps port.old) (P.steps port.new) result memory.now.frame }
    ensures kept { P.fixed port.new ≡ P.fixed port.old }
{
    match ask_each(alloc, sweep, kind, map, actors, port) {
        Ok(_) => Ok(0),
        Err(want) => Err(HelperFault::Memory(want)),
    }
}
