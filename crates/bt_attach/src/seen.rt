// What is seen of a probe behind some of its points.
ghost use Rattle.std.specs.Prelude.{◌≡◌, ◌+◌, ◌≤◌, [], length, count_by, if◌then◌else◌};
ghost use Rattle.bt_attach.specs.declared.error.AttachError.TheVariants.{UnknownTracepoint, NoMatch};
ghost use Rattle.bt_core.specs.declared.limits.TheConstants.{TICKS as MOST_TICKS};
ghost use Rattle.bt_ast.specs.declared.probe.Point.{Point as PointValue};
ghost use Rattle.bt_attach.specs.Attaching.{or_else, own_fault, has_star, place_of, point_tick_count, too_many_ticks};
ghost use Rattle.bt_attach.specs.Steps.{added, seen_points, Answers};

use crate::error::AttachError;
use crate::marks::mark;
use crate::period::period_in;
use bt_ast::probe::{Point, Unit};
use bt_core::items::Items;
use bt_core::limits::TICKS;
use bt_core::place::Place;
use event_layout::format::Format;
use std::alloc::Global;

/// Which kinds of points a probe has, which formats they match, and how many ticks there are up to
/// and with them, those of earlier probes included.
pub(crate) struct Seen {
    pub begin: bool,
    pub end: bool,
    pub interval: bool,
    pub marks: Items<bool>,
    pub ticks: u64,
}

// Written out, so that it is one call wherever such a value is let go.
impl Drop for Seen {
    fn drop(self) {
        let Self {
            begin: _,
            end: _,
            interval: _,
            marks: _,
            ticks: _,
        } = self;
    }
}

fn mark_count(marks: &[bool]) -> usize
    ensures value { result ≡ count_by (λ m. m) marks.now }
    ensures few { result ≤ length marks.now }
{
    marks.iter().filter(|m| **m).count()
}

/// How many bodies the points seen give.
#[tactic(auto, using(crate::proofs::SeenLemmas::seen_length))]
pub(crate) fn body_count(seen: &Seen) -> u64
    ensures value { result ≡ length (seen_points seen.now) }
    ensures few { result ≤ length seen.now.marks + 3 }
{
    let events = mark_count(seen.marks.as_slice()) as u64;
    u64::from(seen.begin) + u64::from(seen.end) + u64::from(seen.interval) + events
}

/// Why a tracepoint that matches no format is refused.
fn no_match(system: &[u8], name: &[u8], place: Place) -> AttachError
    ensures { result ≡ (if has_star system.now name.now then NoMatch place else UnknownTracepoint place) }
{
    if system.contains(&b'*') || name.contains(&b'*') {
        AttachError::NoMatch(place)
    } else {
        AttachError::UnknownTracepoint(place)
    }
}

/// The place of a point.
pub(crate) fn place_of(point: &Point) -> Place
    ensures { result ≡ place_of point.now }
{
    match point {
        Point::Begin { place }
        | Point::End { place }
        | Point::Tracepoint { place, .. }
        | Point::Interval { place, .. } => *place,
    }
}

/// Marks the formats that a tracepoint matches, where it matches one.
fn add_tracepoint(
    alloc: Global,
    seen: &mut Seen,
    formats: &[Format],
    system: &Items<u8>,
    name: &Items<u8>,
    place: Place,
) -> Result<(), AttachError>
    requires { length seen.old.marks ≡ length formats.now }
    ensures { let point = PointValue.Tracepoint system.now name.now place in
        Answers (own_fault formats.now point) (λ _. seen.new ≡ added formats.now 0 seen.old point) result }
{
    let marked = mark(
        alloc,
        seen.marks.as_slice(),
        formats,
        system.as_slice(),
        name.as_slice(),
    )?;
    if !marked.found {
        return Err(no_match(system.as_slice(), name.as_slice(), place));
    }
    seen.marks = marked.marks;
    Ok(())
}

/// Adds the ticks of an interval, where there are not too many with them.
fn add_interval(
    seen: &mut Seen,
    span: u64,
    unit: Unit,
    number: u64,
    place: Place,
) -> Result<(), AttachError>
    requires { seen.old.ticks ≤ MOST_TICKS }
    ensures { let point = PointValue.Interval unit number place in
        let fault = or_else (own_fault [] point) (too_many_ticks (seen.old.ticks + point_tick_count span point) point) in
        Answers fault (λ _. seen.new ≡ added [] span seen.old point) result }
{
    let Some(period) = period_in(unit, number) else {
        return Err(AttachError::BadPeriod(place));
    };
    let count = span / period;
    if count > u64::from(TICKS) - seen.ticks {
        return Err(AttachError::TooManyTicks(place));
    }
    seen.interval = true;
    seen.ticks += count;
    Ok(())
}

/// Adds a point, where it breaks no rule by itself and there are not too many ticks with it.
pub(crate) fn add_point(
    alloc: Global,
    seen: &mut Seen,
    point: &Point,
    formats: &[Format],
    span: u64,
) -> Result<(), AttachError>
    requires marks { length seen.old.marks ≡ length formats.now }
    requires ticks { seen.old.ticks ≤ MOST_TICKS }
    ensures { Answers
        (or_else (own_fault formats.now point.now) (too_many_ticks (seen.old.ticks + point_tick_count span point.now) point.now))
        (λ _. seen.new ≡ added formats.now span seen.old point.now) result }
{
    match point {
        Point::Begin { .. } => {
            seen.begin = true;
            Ok(())
        }
        Point::End { .. } => {
            seen.end = true;
            Ok(())
        }
        Point::Tracepoint {
            system,
            name,
            place,
        } => add_tracepoint(alloc, seen, formats, system, name, *place),
        Point::Interval {
            unit,
            number,
            place,
        } => add_interval(seen, span, *unit, *number, *place),
    }
}
