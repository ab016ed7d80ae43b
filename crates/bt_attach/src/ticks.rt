// Ticks of intervals.
ghost use Rattle.std.specs.Prelude.{◌≡◌, ◌+◌, ◌*◌, ◌^◌, ◌<◌, ◌++◌, IfOk, OnOk};
ghost use Rattle.std.specs.List.{flat_map};
ghost use Rattle.bt_attach.specs.Attaching.{point_ticks};
ghost use Rattle.bt_attach.specs.Ticks.{first_ticks, AreInOrder};

use crate::period::period_in;
use bt_ast::attached::Tick;
use bt_ast::probe::Point;
use bt_core::items::Items;
use bt_core::memory::Memory;

/// Adds the first so many ticks of a period.
pub(crate) fn add_ticks(
    ticks: &mut Vec<Tick>,
    start: u64,
    period: u64,
    body: u32,
    count: u64,
) -> Result<(), Memory>
    requires { start + count * period < 2 ^ 64 }
    ensures { OnOk result (ticks.new.items ≡ ticks.old.items ++ first_ticks start period body count) }
{
    for k in 0..count {
        let time = start + (k + 1) * period;
        ticks.push(Tick { time, body })?;
    }
    Ok(())
}

/// The ticks in order: by time, and at one time as they stood.
pub(crate) fn in_order(mut ticks: Vec<Tick>) -> Result<Items<Tick>, Memory>
    ensures { IfOk result (λ sorted. AreInOrder ticks.items sorted) }
{
    ticks.sort_by_key(|t| t.time)?;
    Ok(Items::of(ticks))
}

/// Adds the ticks of a point, where it is an interval.
fn add_point(
    ticks: &mut Vec<Tick>,
    start: u64,
    span: u64,
    body: u32,
    point: &Point,
) -> Result<(), Memory>
    requires { start + span < 2 ^ 64 }
    ensures { OnOk result (ticks.new.items ≡ ticks.old.items ++ point_ticks start span body point.now) }
{
    if let Point::Interval { unit, number, .. } = point {
        if let Some(period) = period_in(*unit, *number) {
            add_ticks(ticks, start, period, body, span / period)?;
        }
    }
    Ok(())
}

/// Adds the ticks of a probe's points.
pub(crate) fn add_points(
    ticks: &mut Vec<Tick>,
    start: u64,
    span: u64,
    body: u32,
    points: &[Point],
) -> Result<(), Memory>
    requires { start + span < 2 ^ 64 }
    ensures { OnOk result (ticks.new.items ≡ ticks.old.items ++ flat_map (point_ticks start span body) points.now) }
{
    for point in points {
        add_point(ticks, start, span, body, point)?;
    }
    Ok(())
}
