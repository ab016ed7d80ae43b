// The objects of a run that has ended.
ghost use Rattle.std.specs.Prelude.{◌≡◌, List, map, IfOk};
ghost use Rattle.bt_core.specs.declared.step.Step.{Step};
ghost use Rattle.run_objects.specs.Worlds.{World};
ghost use Rattle.run_objects.specs.Closed.{object_of, objects_in, part_list, MapsStand};
ghost use Rattle.run_objects.specs.Objects.{Stand};

use crate::objects::{MapParts, Objects};
use crate::own::OwnObject;
use bt_core::memory::Memory;
use std::alloc::Global;
use step_objects::cpu::CpuTable;
use step_objects::shared::SharedPart;

/// The objects of a run that has ended which hold its maps: the parts of each map at its number, none of an aggregation, and the
/// tables of each actor.
pub struct Closed {
    pub parts: Vec<Vec<SharedPart>>,
    pub tables: Vec<CpuTable>,
}

// Written out, so that it is one call wherever such a value is let go.
impl Drop for Closed {
    fn drop(self) {
        let Self {
            parts: _,
            tables: _,
        } = self;
    }
}

/// The objects of this list, without their clocks.
fn objects_of<O: Drop>(alloc: Global, owns: Vec<OwnObject<O>>) -> Result<Vec<O>, Memory>
    ensures { IfOk result (λ list. list.items ≡ map object_of owns.items) }
{
    let mut list = Vec::with_capacity(alloc, owns.len())?;
    for own in owns {
        let OwnObject { object, clock: _ } = own;
        list.push(object)?;
    }
    Ok(list)
}

/// The parts of all maps, without their clocks.
fn parts_of(alloc: Global, shared: Vec<MapParts>) -> Result<Vec<Vec<SharedPart>>, Memory>
    ensures { IfOk result (λ all. map part_list all.items ≡ map objects_in shared.items) }
{
    let mut all = Vec::with_capacity(alloc, shared.len())?;
    for held in shared {
        let MapParts { parts } = held;
        all.push(objects_of(alloc, parts)?)?;
    }
    Ok(all)
}

impl Objects {
    /// The objects that hold maps, once the run has ended: without their clocks, the tick clock and the output.
    ///
    /// # Errors
    ///
    /// [`Memory`] is the one error.
    pub fn close(self, alloc: Global) -> Result<Closed, Memory>
        ensures { IfOk result (λ closed. (w : World) (steps : List Step) → Stand w steps self → MapsStand w steps closed) }
    {
        let Objects {
            shared,
            tables,
            ticks: _,
            out: _,
        } = self;
        let parts = parts_of(alloc, shared)?;
        let tables = objects_of(alloc, tables)?;
        Ok(Closed { parts, tables })
    }
}
