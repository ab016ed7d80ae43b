// Objects that no step was made at yet.
ghost use Rattle.std.specs.Prelude.{◌≡◌, ◌+◌, ◌<◌, ◌^◌, [], length, All, IfOk};
ghost use Rattle.bt_core.specs.Kinds.{IsFineDecl};
ghost use Rattle.step_objects.specs.Objects.{shared_kind, SharedStands, cpu_kind, CpuStands};
ghost use Rattle.run_objects.specs.News.{AreNew, AreNewParts, NewMaps};
ghost use Rattle.run_objects.specs.Objects.{Stand};

use crate::numbers::number;
use crate::objects::{MapParts, Objects};
use crate::own::OwnObject;
use bt_core::items::Items;
use bt_core::map::{MapDecl, MapId};
use bt_core::memory::{Memory, TryCopy};
use map_ops::parts::part_count;
use std::alloc::Global;
use step_objects::clock::TickClock;
use step_objects::cpu::CpuTable;
use step_objects::out::OutLog;
use step_objects::shared::SharedPart;

/// The parts of a map: none of an aggregation.
fn parts_of(alloc: Global, map: u32, decl: &MapDecl) -> Result<MapParts, Memory>
    ensures { IfOk result (λ list. AreNewParts map decl.now list) }
{
    let mut parts = Vec::new(alloc);
    for _ in 0..part_count(decl.kind) {
        let object = SharedPart::new(alloc, MapId(map), decl.try_copy(alloc)?)?;
        parts.push(OwnObject { object, clock: 0 })?;
    }
    Ok(MapParts { parts })
}

/// The parts of all maps, each map at its number.
fn parts_of_all(alloc: Global, maps: &[MapDecl]) -> Result<Vec<MapParts>, Memory>
    ensures { IfOk result (λ all. NewMaps maps.now all.items) }
{
    let mut all = Vec::new(alloc);
    for (map, decl) in maps.iter().enumerate() {
        let map = number(map)?;
        all.push(parts_of(alloc, map, decl)?)?;
    }
    Ok(all)
}

/// The tables of so many actors.
fn tables_of(
    alloc: Global,
    maps: &Items<MapDecl>,
    actors: u32,
) -> Result<Vec<OwnObject<CpuTable>>, Memory>
    requires { All IsFineDecl maps.now }
    ensures new { IfOk result (λ tables. AreNew cpu_kind CpuStands maps.now tables.items) }
    ensures count { IfOk result (λ tables. length tables.items ≡ actors) }
{
    let mut tables = Vec::new(alloc);
    for _ in 0..actors {
        let object = CpuTable::new(alloc, maps.try_copy(alloc)?)?;
        tables.push(OwnObject { object, clock: 0 })?;
    }
    Ok(tables)
}

/// The objects of a world with these maps, so many CPUs and so many ticks, which no step was made at.
///
/// # Errors
///
/// [`Memory`] is the one error.
pub fn new_objects(
    alloc: Global,
    maps: &Items<MapDecl>,
    cpus: u32,
    ticks: u32,
) -> Result<Objects, Memory>
    requires fine { All IsFineDecl maps.now }
    requires some_cpus { 0 < cpus }
    requires few_cpus { cpus + 1 < 2 ^ 32 }
    ensures { IfOk result (λ objects. Stand (record { cpus = cpus; ticks = ticks; maps = maps.now }) [] objects) }
{
    let shared = parts_of_all(alloc, maps.as_slice())?;
    let tables = tables_of(alloc, maps, cpus + 1)?;
    let clock = TickClock::new(alloc, cpus, ticks)?;
    let out = OutLog::new(alloc)?;
    Ok(Objects {
        shared,
        tables,
        ticks: OwnObject {
            object: clock,
            clock: 0,
        },
        out: OwnObject {
            object: out,
            clock: 0,
        },
    })
}
