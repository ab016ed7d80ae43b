// Aggregations that are read by name.
ghost use Rattle.std.specs.Prelude.{◌≡◌};
ghost use Rattle.bt_core.specs.Interaction.{Performed};
ghost use Rattle.bt_core.specs.Kinds.{IsAggregation};
ghost use Rattle.map_ops.specs.Asking.{summed};
ghost use Rattle.map_ops.specs.Holders.{CanSweep};

use crate::sweep::{Sweep, ask_each};
use bt_core::key::Key;
use bt_core::map::{MapId, MapKind};
use bt_core::memory::Memory;
use bt_core::port::Port;
use map_rows::merging::merged;
use map_rows::numbers::number_under;
use std::alloc::Global;

/// The number under a key of an aggregation of this kind, over the tables of all actors, and 0 where no table has the
/// key, as for a histogram.
///
/// After [`Memory`] the first of the tables were read.
pub fn sum_under<P: Port>(
    alloc: Global,
    kind: MapKind,
    map: MapId,
    key: &Key,
    actors: u32,
    port: &mut P,
) -> Result<i64, Memory>
    requires can { CanSweep (P.fixed port.old).setting map kind actors }
    requires gathers { IsAggregation kind }
    ensures performed { Performed (summed map key.now actors) (P.steps port.old) (P.steps port.new) result }
    ensures kept { P.fixed port.new ≡ P.fixed port.old }
{
    let replies = ask_each(alloc, Sweep::Read, kind, map, actors, port)?;
    let rows = merged(alloc, kind, replies.as_slice())?;
    Ok(number_under(key, rows.as_slice()))
}
