// The parts of shared maps.
ghost use Rattle.std.specs.Prelude.{◌≡◌};
ghost use Rattle.map_ops.specs.Parts.{is_part_number, part_count};

use bt_core::limits::PARTS;
use bt_core::map::MapKind;

/// How many parts a map of this kind has: none where it is an aggregation.
pub fn part_count(kind: MapKind) -> u32
    ensures { result ≡ part_count kind }
{
    match kind {
        MapKind::Aggs(_) => 0,
        MapKind::Ints => PARTS,
        MapKind::Strs => PARTS,
    }
}

/// Whether a shared map has a part with this number.
pub fn is_part_number(part: u32) -> bool
    ensures { result ≡ is_part_number part }
{
    part < PARTS
}
