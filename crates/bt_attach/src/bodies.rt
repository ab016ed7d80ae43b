// The bodies of probes, and where each is run.
ghost use Rattle.std.specs.Prelude.{◌≡◌, ◌+◌, ◌<◌, ◌≤◌, ◌^◌, ◌++◌, map, length, OnOk, IfOk};
ghost use Rattle.bt_ast.specs.declared.attached.BodyPoint.{BodyPoint as PointValue};
ghost use Rattle.bt_attach.specs.Attaching.{is_at, bodies_at, at_each, once};
ghost use Rattle.bt_attach.specs.Steps.{seen_points, with_probe, events_marked};

use crate::seen::Seen;
use bt_ast::attached::{BodyId, BodyPoint};
use bt_core::items::Items;
use bt_core::memory::Memory;
use std::alloc::Global;

/// Adds a body of a probe, if there is one.
fn add_once(
    bodies: &mut Items<BodyId>,
    probe: u32,
    some: bool,
    point: BodyPoint,
) -> Result<(), Memory>
    ensures { OnOk result (bodies.new ≡ bodies.old ++ with_probe probe (once some point)) }
{
    if some {
        bodies.push(BodyId { probe, point })?;
    }
    Ok(())
}

/// Adds the bodies of a probe at events: those of the formats that are marked.
fn add_events(bodies: &mut Items<BodyId>, probe: u32, marks: &[bool]) -> Result<(), Memory>
    requires { length marks.now < 2 ^ 32 }
    ensures { OnOk result (bodies.new ≡ bodies.old ++ with_probe probe (events_marked 0 marks.now)) }
{
    for (k, mark) in marks.iter().enumerate() {
        if *mark {
            let point = BodyPoint::Event(k as u32);
            bodies.push(BodyId { probe, point })?;
        }
    }
    Ok(())
}

/// Adds the bodies of a probe: BEGIN, END, interval, and its events in the order of the formats.
pub(crate) fn add_bodies(bodies: &mut Items<BodyId>, probe: u32, seen: &Seen) -> Result<(), Memory>
    requires { length seen.now.marks < 2 ^ 32 }
    ensures { OnOk result (bodies.new ≡ bodies.old ++ with_probe probe (seen_points seen.now)) }
{
    add_once(bodies, probe, seen.begin, BodyPoint::Begin)?;
    add_once(bodies, probe, seen.end, BodyPoint::End)?;
    add_once(bodies, probe, seen.interval, BodyPoint::Interval)?;
    add_events(bodies, probe, seen.marks.as_slice())
}

fn is_at(point: BodyPoint, other: BodyPoint) -> bool
    ensures { result ≡ is_at point other }
{
    match (point, other) {
        (BodyPoint::Begin, BodyPoint::Begin) => true,
        (BodyPoint::End, BodyPoint::End) => true,
        (BodyPoint::Interval, BodyPoint::Interval) => true,
        (BodyPoint::Event(a), BodyPoint::Event(b)) => a == b,
        _ => false,
    }
}

/// The numbers of the bodies that are run at a point.
fn bodies_at(alloc: Global, bodies: &[BodyId], point: BodyPoint) -> Result<Items<u32>, Memory>
    requires { length bodies.now < 2 ^ 32 }
    ensures { IfOk result (λ numbers. numbers ≡ bodies_at bodies.now point) }
{
    let mut numbers = Items::new(alloc);
    for (k, body) in bodies.iter().enumerate() {
        if is_at(point, body.point) {
            numbers.push(k as u32)?;
        }
    }
    Ok(numbers)
}

/// For each of so many formats, the numbers of the bodies that its events run.
fn bodies_by_format(
    alloc: Global,
    bodies: &[BodyId],
    count: u32,
) -> Result<Items<Items<u32>>, Memory>
    requires { length bodies.now < 2 ^ 32 }
    ensures { IfOk result (λ lists. lists ≡ at_each bodies.now count) }
{
    let mut lists = Items::new(alloc);
    for k in 0..count {
        lists.push(bodies_at(alloc, bodies, BodyPoint::Event(k))?)?;
    }
    Ok(lists)
}

/// The numbers of the bodies that are run at the events of each format, before all and after all.
#[derive(Drop)]
pub(crate) struct Runs {
    pub by_format: Items<Items<u32>>,
    pub begin: Items<u32>,
    pub end: Items<u32>,
}

impl Runs {
    ghost use Rattle.std.specs.Prelude.{◌<◌, ◌^◌, length, IfOk};
    ghost use Rattle.bt_attach.specs.Steps.{AreRuns};

    /// Where bodies are run: at the events of so many formats, before all and after all.
    pub(crate) fn of(alloc: Global, bodies: &[BodyId], formats: u32) -> Result<Runs, Memory>
        requires { length bodies.now < 2 ^ 32 }
        ensures { IfOk result (λ runs. AreRuns bodies.now formats runs) }
    {
        let begin = bodies_at(alloc, bodies, BodyPoint::Begin)?;
        let end = bodies_at(alloc, bodies, BodyPoint::End)?;
        let by_format = bodies_by_format(alloc, bodies, formats)?;
        Ok(Runs {
            by_format,
            begin,
            end,
        })
    }
}
