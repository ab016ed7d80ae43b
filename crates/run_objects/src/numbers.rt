// Numbers that may be too great.
ghost use Rattle.std.specs.Prelude.{◌≡◌, ◌^◌, ◌≤◌, IfOk, OnErr};

use bt_core::memory::Memory;

/// The number of a map at a place, or [`Memory`] past the greatest that fits.
pub(crate) fn number(place: usize) -> Result<u32, Memory>
    ensures same { IfOk result (λ map. map ≡ place) }
    ensures beyond { OnErr result (2 ^ 32 ≤ place) }
{
    Ok(u32::try_from(place)?)
}
