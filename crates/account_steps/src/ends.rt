// What is in the maps after steps that were made.
ghost use Rattle.std.specs.Prelude.{◌≡◌, IfOk};
ghost use Rattle.bt_meaning.specs.Prints.{lost_after, of_maps, rows_after};
ghost use Rattle.map_rows.specs.Fits.{AllRowsFit};
ghost use Rattle.run_objects.specs.Closed.{AreClosedAt};
ghost use Rattle.run_objects.specs.Moments.{Moment};

use bt_core::item::Cell;
use bt_core::items::Items;
use bt_core::key::Key;
use bt_core::map::MapDecl;
use bt_core::memory::Memory;
use bt_core::step::Step;
use run_objects::closed::Closed;
use run_objects::ends::read_maps;
use std::alloc::Global;
use std::snapshot::Snapshot;

/// The objects at which steps were made; and for proofs these steps, and how many CPUs and ticks there are.
#[derive(Drop)]
pub struct Ended {
    pub cpus: u32,
    pub ticks: u32,
    pub made: Snapshot<Items<Step>>,
    pub objects: Closed,
}

/// The rows of each map, which fit it, and how many of its updates were lost, as the objects tell it.
///
/// [`Memory`] is the one error.
pub fn end_of(
    alloc: Global,
    maps: &[MapDecl],
    ended: &Ended,
) -> Result<(Vec<Items<(Key, Cell)>>, Vec<u64>), Memory>
    ghost at: { Moment }
    requires closed { AreClosedAt at ended.now.objects }
    requires maps { at.world.maps ≡ maps.now }
    ensures rows { IfOk result (λ end. end.0.items ≡ of_maps (rows_after at.world.maps at.world.cpus at.steps) 0 maps.now) }
    ensures lost { IfOk result (λ end. end.1.items ≡ of_maps (lost_after at.world.maps at.world.cpus at.steps) 0 maps.now) }
    ensures fit { IfOk result (λ end. AllRowsFit maps.now end.0.items) }
{
    let end = read_maps(alloc, maps, &ended.objects)?;
    Ok(end)
}
