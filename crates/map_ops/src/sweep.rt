// Operations on all the objects that hold a map.
ghost use Rattle.std.specs.Prelude.{◌≡◌, All, IfOk};
ghost use Rattle.bt_core.specs.Interaction.{Performed};
ghost use Rattle.map_rows.specs.Merged.{HasRowsOf};
ghost use Rattle.map_ops.specs.declared.sweep.Sweep.TheVariants as sweeps;
ghost use Rattle.map_ops.specs.Asking.{swept};
ghost use Rattle.map_ops.specs.Holders.{holder, holders, sweep_op, CanSweep};

use crate::parts::part_count;
use bt_core::items::Items;
use bt_core::map::{MapId, MapKind};
use bt_core::memory::Memory;
use bt_core::port::Port;
use bt_core::step::{ObjectId, Op, Reply};
use std::alloc::Global;

/// What is done to a whole map: its rows are read, or taken away, or their values are made 0 or empty.
#[derive(Clone, Copy)]
pub enum Sweep {
    Read,
    Clear,
    Zero,
}

/// An object that holds a map of this kind: the table of an actor, or a part of the map.
fn holder(kind: MapKind, map: MapId, place: u32) -> ObjectId
    ensures { result ≡ holder kind map place }
{
    match kind {
        MapKind::Aggs(_) => ObjectId::Cpu(place),
        MapKind::Ints => ObjectId::Shared { map, part: place },
        MapKind::Strs => ObjectId::Shared { map, part: place },
    }
}

/// How many objects hold a map of this kind.
fn holders(kind: MapKind, actors: u32) -> u32
    ensures { result ≡ holders kind actors }
{
    match kind {
        MapKind::Aggs(_) => actors,
        MapKind::Ints => part_count(kind),
        MapKind::Strs => part_count(kind),
    }
}

/// The operation of a sweep on one of them.
fn sweep_op(sweep: Sweep, kind: MapKind, map: MapId) -> Op
    ensures { result ≡ sweep_op sweep kind map }
{
    match (sweep, kind) {
        (Sweep::Read, MapKind::Aggs(_)) => Op::Read(map),
        (Sweep::Read, _) => Op::ReadAll,
        (Sweep::Clear, MapKind::Aggs(_)) => Op::ClearOf(map),
        (Sweep::Clear, _) => Op::Clear,
        (Sweep::Zero, MapKind::Aggs(_)) => Op::ZeroOf(map),
        (Sweep::Zero, _) => Op::Zero,
    }
}

/// Asks each object that holds a map of this kind once, in order, and gives their replies.
///
/// After [`Memory`] the first of them were asked.
pub fn ask_each<P: Port>(
    alloc: Global,
    sweep: Sweep,
    kind: MapKind,
    map: MapId,
    actors: u32,
    port: &mut P,
) -> Result<Items<Reply>, Memory>
    requires { CanSweep (P.fixed port.old).setting map kind actors }
    ensures performed { Performed (swept sweep kind map actors) (P.steps port.old) (P.steps port.new) result }
    ensures rows { IfOk result (λ replies. sweep ≡ sweeps.Read → All (HasRowsOf kind) replies) }
    ensures kept { P.fixed port.new ≡ P.fixed port.old }
{
    let mut replies = Items::new(alloc);
    for place in 0..holders(kind, actors) {
        let mut op = sweep_op(sweep, kind, map);
        port.step(alloc, holder(kind, map, place), &mut op)?;
        let reply = port.last().copy(alloc)?;
        replies.push(reply)?;
    }
    Ok(replies)
}
