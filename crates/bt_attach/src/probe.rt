// The points of one probe.
ghost use Rattle.std.specs.Prelude.{◌≡◌, ◌+◌, ◌≤◌, ◌^◌, ◌<◌, [], length, replicate, false, IfOk};
ghost use Rattle.bt_core.specs.declared.limits.TheConstants.{TICKS as MOST_TICKS, BODIES as MOST_BODIES};
ghost use Rattle.bt_attach.specs.Attaching.{points_fault};
ghost use Rattle.bt_attach.specs.Steps.{seen_points, IsSeen, Answers};

use crate::error::AttachError;
use crate::seen::{Seen, add_point, body_count, place_of};
use bt_ast::probe::Point;
use bt_core::items::Items;
use bt_core::limits::BODIES;
use bt_core::memory::Memory;
use event_layout::format::Format;
use std::alloc::Global;

/// Marks of which none is set.
fn no_marks(alloc: Global, count: usize) -> Result<Items<bool>, Memory>
    ensures { IfOk result (λ marks. marks ≡ replicate count false) }
{
    Ok(Items::of(vec![in alloc; false; count]?))
}

/// What is seen of a probe behind all its points, where none of them breaks a rule. So many ticks and
/// bodies stand before the probe.
pub(crate) fn check_points(
    alloc: Global,
    points: &[Point],
    formats: &[Format],
    span: u64,
    ticks: u64,
    bodies: u64,
) -> Result<Seen, AttachError>
    requires formats { length formats.now < 2 ^ 32 }
    requires few_ticks { ticks ≤ MOST_TICKS }
    requires few_bodies { bodies ≤ MOST_BODIES }
    ensures answer { Answers (points_fault formats.now span ticks bodies [] points.now) (IsSeen formats.now span ticks points.now) result }
    ensures ticks { IfOk result (λ seen. seen.ticks ≤ MOST_TICKS) }
    ensures bodies { IfOk result (λ seen. bodies + length (seen_points seen) ≤ MOST_BODIES) }
{
    let mut seen = Seen {
        begin: false,
        end: false,
        interval: false,
        marks: no_marks(alloc, formats.len())?,
        ticks,
    };
    for point in points {
        add_point(alloc, &mut seen, point, formats, span)?;
        if bodies + body_count(&seen) > u64::from(BODIES) {
            return Err(AttachError::TooManyAttached(place_of(point)));
        }
    }
    Ok(seen)
}
