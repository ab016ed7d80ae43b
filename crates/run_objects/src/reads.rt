// What is read of the objects that hold a map.
ghost use Rattle.std.specs.Prelude.{◌≡◌, ◌<◌, ◌≤◌, ◌^◌, List, All, IfOk, OnErr, length, sum, Some, slice_get};
ghost use Rattle.bt_core.specs.declared.map.MapDecl.{MapDecl};
ghost use Rattle.bt_core.specs.declared.step.ObjectId.TheVariants.{Shared as PartOf, Cpu as TablesOf};
ghost use Rattle.bt_core.specs.declared.step.Step.{Step};
ghost use Rattle.step_objects.specs.Objects.{cpu_kind, CpuStands, shared_kind, SharedStands, IsAggMap};
ghost use Rattle.run_objects.specs.Moments.{table_reply, table_lost, part_reply, part_lost, of_first};
ghost use Rattle.run_objects.specs.Objects.{AllStandAt, IsPartOf};

use bt_core::map::MapId;
use bt_core::memory::{Memory, sum};
use bt_core::step::Reply;
use std::alloc::Global;
use step_objects::cpu::CpuTable;
use step_objects::shared::SharedPart;

/// The rows of an aggregation in the tables of each actor, as replies.
pub(crate) fn table_replies(
    alloc: Global,
    tables: &[CpuTable],
    map: MapId,
) -> Result<Vec<Reply>, Memory>
    requires { All (λ (table : CpuTable). IsAggMap (cpu_kind table) map) tables.now }
    ensures { IfOk result (λ replies. (maps : List MapDecl) (steps : List Step) → AllStandAt cpu_kind CpuStands (λ ms. ms ≡ maps) steps TablesOf tables.now →
        replies.items ≡ of_first (table_reply maps steps map) (length tables.now)) }
{
    let mut replies = Vec::new(alloc);
    for table in tables {
        let reply = table.rows(alloc, map)?;
        replies.push(reply)?;
    }
    Ok(replies)
}

/// How many updates of an aggregation the tables of all actors lost.
pub(crate) fn table_losses(tables: &[CpuTable], map: MapId) -> Result<u64, Memory>
    requires { All (λ (table : CpuTable). IsAggMap (cpu_kind table) map) tables.now }
    ensures lost { IfOk result (λ lost. (maps : List MapDecl) (steps : List Step) → AllStandAt cpu_kind CpuStands (λ ms. ms ≡ maps) steps TablesOf tables.now →
        lost ≡ sum (of_first (table_lost maps steps map) (length tables.now))) }
    ensures beyond { OnErr result ((maps : List MapDecl) (steps : List Step) → AllStandAt cpu_kind CpuStands (λ ms. ms ≡ maps) steps TablesOf tables.now →
        2 ^ 64 ≤ sum (of_first (table_lost maps steps map) (length tables.now))) }
{
    let mut total = 0;
    for table in tables {
        total = sum(total, table.lost(map))?;
    }
    Ok(total)
}

/// The rows of a shared map in each of its parts, as replies.
pub(crate) fn part_replies(
    alloc: Global,
    parts: &[SharedPart],
    map: MapId,
) -> Result<Vec<Reply>, Memory>
    requires { All (λ (part : SharedPart). (shared_kind part).map ≡ map) parts.now }
    ensures { IfOk result (λ replies. (maps : List MapDecl) (steps : List Step) (decl : MapDecl) → slice_get maps map.0 ≡ Some decl →
        AllStandAt shared_kind SharedStands (IsPartOf maps map.0) steps (PartOf map) parts.now →
        replies.items ≡ of_first (part_reply maps steps map decl) (length parts.now)) }
{
    let mut replies = Vec::new(alloc);
    for part in parts {
        let reply = part.rows(alloc, map)?;
        replies.push(reply)?;
    }
    Ok(replies)
}

/// How many updates of a shared map all its parts lost.
pub(crate) fn part_losses(parts: &[SharedPart], map: MapId) -> Result<u64, Memory>
    requires { All (λ (part : SharedPart). (shared_kind part).map ≡ map) parts.now }
    ensures lost { IfOk result (λ lost. (maps : List MapDecl) (steps : List Step) →
        AllStandAt shared_kind SharedStands (IsPartOf maps map.0) steps (PartOf map) parts.now →
        lost ≡ sum (of_first (part_lost maps steps map) (length parts.now))) }
    ensures beyond { OnErr result ((maps : List MapDecl) (steps : List Step) →
        AllStandAt shared_kind SharedStands (IsPartOf maps map.0) steps (PartOf map) parts.now →
        2 ^ 64 ≤ sum (of_first (part_lost maps steps map) (length parts.now))) }
{
    let mut total = 0;
    for part in parts {
        total = sum(total, part.lost(map))?;
    }
    Ok(total)
}
