// Tables that no step was made at yet.
ghost use Rattle.std.specs.Prelude.{◌≡◌, [], map, All, IfOk};
ghost use Rattle.bt_core.specs.declared.step.ObjectId.TheVariants.{Cpu};
ghost use Rattle.bt_core.specs.Kinds.{IsFineDecl};
ghost use Rattle.turn_lock.specs.History.{Each};
ghost use Rattle.stamped.specs.Numbered.{numbered};
ghost use Rattle.step_objects.specs.Objects.{cpu_kind, CpuStands};

use bt_core::items::Items;
use bt_core::map::MapDecl;
use bt_core::memory::{Memory, TryCopy};
use bt_core::step::ObjectId;
use std::alloc::Global;
use step_objects::cpu::CpuTable;

/// The tables of so many actors, which took no operation yet, each with its identifier.
pub(crate) fn new_tables(
    alloc: Global,
    maps: &Items<MapDecl>,
    actors: u32,
) -> Result<Vec<(ObjectId, CpuTable)>, Memory>
    requires { All IsFineDecl maps.now }
    ensures ids { IfOk result (λ objects. map (λ object. object.0) objects.items ≡ numbered Cpu 0 actors) }
    ensures kinds { IfOk result (λ objects. map (λ object. cpu_kind object.1) objects.items ≡ numbered (λ _. maps.now) 0 actors) }
    ensures stand { IfOk result (λ objects. Each (λ object. CpuStands object.1 []) objects.items) }
{
    let mut objects = Vec::new(alloc);
    for actor in 0..actors {
        let table = CpuTable::new(alloc, maps.try_copy(alloc)?)?;
        objects.push((ObjectId::Cpu(actor), table))?;
    }
    Ok(objects)
}
