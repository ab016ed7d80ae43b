// Printed maps.
ghost use Rattle.std.specs.Prelude.{◌≡◌};
ghost use Rattle.bt_core.specs.Interaction.{Performed};
ghost use Rattle.map_ops.specs.Asking.{printed};
ghost use Rattle.map_ops.specs.Holders.{CanSweep};

use crate::access::tell;
use crate::sweep::{Sweep, ask_each};
use bt_core::item::Item;
use bt_core::map::{MapId, MapKind};
use bt_core::memory::Memory;
use bt_core::port::Port;
use bt_core::step::{ObjectId, Op};
use map_rows::merging::merged;
use std::alloc::Global;

/// Prints a map of this kind: one item with the merged rows of all objects that hold it, also where there are none.
///
/// After [`Memory`] the first of the steps were made.
pub fn print_map<P: Port>(
    alloc: Global,
    kind: MapKind,
    map: MapId,
    top: u64,
    div: i64,
    actors: u32,
    port: &mut P,
) -> Result<(), Memory>
    requires { CanSweep (P.fixed port.old).setting map kind actors }
    ensures performed { Performed (printed kind map top div actors) (P.steps port.old) (P.steps port.new) result }
    ensures kept { P.fixed port.new ≡ P.fixed port.old }
{
    let replies = ask_each(alloc, Sweep::Read, kind, map, actors, port)?;
    let rows = merged(alloc, kind, replies.as_slice())?;
    let mut op = Op::Emit(Item::Map {
        map,
        rows,
        top,
        div,
    });
    tell(alloc, ObjectId::Out, &mut op, port)
}
