// The objects of a run on one thread.
ghost use Rattle.std.specs.Prelude.{List, IfOk, OnErr};
ghost use Rattle.bt_core.specs.declared.step.Step.{Step};
ghost use Rattle.run_objects.specs.Worlds.{World, IsOwn};
ghost use Rattle.run_objects.specs.Objects.{Stand, IsAnswer};

use crate::own::{OwnObject, take_in};
use bt_core::memory::Memory;
use bt_core::step::{ObjectId, Op, Reply};
use std::alloc::Global;
use step_objects::clock::TickClock;
use step_objects::cpu::CpuTable;
use step_objects::out::OutLog;
use step_objects::shared::SharedPart;

/// The parts of a shared map by their numbers; none of a map that is an aggregation.
#[derive(Drop)]
pub struct MapParts {
    pub parts: Vec<OwnObject<SharedPart>>,
}

/// All objects of a run, each with its clock: the parts of the maps, each map at its number, the tables of each actor, the tick
/// clock, and the output.
#[derive(Drop)]
pub struct Objects {
    pub shared: Vec<MapParts>,
    pub tables: Vec<OwnObject<CpuTable>>,
    pub ticks: OwnObject<TickClock>,
    pub out: OwnObject<OutLog>,
}

/// Takes an operation at one of the objects, by an actor with this clock, writes its reply over what is there, and tells its
/// stamp. After [`Memory`] it is as if the operation had not been asked, and nothing is said of the reply.
#[inline(always)]
pub fn take_at(
    alloc: Global,
    objects: &mut Objects,
    object: ObjectId,
    op: &Op,
    clock: u64,
    reply: &mut Reply,
) -> Result<u64, Memory>
    requires stand { (w : World) × (steps : List Step) × Stand w steps objects.old × IsOwn w object op.now }
    ensures taken { IfOk result (λ stamp. (w : World) (steps : List Step) → Stand w steps objects.old → IsOwn w object op.now →
        IsAnswer w steps objects.new object op.now clock (reply.new, stamp)) }
    ensures memory { OnErr result ((w : World) (steps : List Step) → Stand w steps objects.old → IsOwn w object op.now →
        Stand w steps objects.new) }
{
    match object {
        ObjectId::Shared { map, part } => {
            let held = &mut objects.shared[map.0 as usize];
            take_in(alloc, &mut held.parts, part as usize, op, clock, reply)
        }
        ObjectId::Cpu(actor) => {
            take_in(alloc, &mut objects.tables, actor as usize, op, clock, reply)
        }
        ObjectId::Clock => objects.ticks.take(alloc, op, clock, reply),
        ObjectId::Out => objects.out.take(alloc, op, clock, reply),
    }
}
