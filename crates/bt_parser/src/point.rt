// What a probe is attached to.
ghost use Rattle.std.specs.Prelude.{◌≡◌, ◌<◌, IfOk, length, true};
ghost use Rattle.bt_grammar.specs.Attach.{attach_point};
ghost use Rattle.bt_grammar.specs.Classes.{is_point};
ghost use Rattle.bt_grammar.specs.Tokens.{class_of, origin, point_class};
ghost use Rattle.bt_grammar.specs.Trees.{found_point, place_of_point, place_of_points, point_of};

use crate::attach::{Attach, attach_of};
use bt_ast::probe::Point;
use bt_core::items::Items;
use bt_core::memory::Memory;
use bt_core::place::Place;
use bt_grammar::class::Class;
use bt_lexer::token::TokenKind;
use std::alloc::Global;

/// The point that an attach token is, which has one of the two forms.
fn attached(alloc: Global, bytes: &[u8], place: Place) -> Result<Point, Memory>
    requires { is_point (point_class (attach_point bytes.now origin)) ≡ true }
    ensures { IfOk result (λ point. point ≡ found_point (attach_point bytes.now place) place) }
{
    match attach_of(bytes) {
        Some(Attach::Tracepoint { system, name }) => Ok(Point::Tracepoint {
            system: Items::from_slice(alloc, system)?,
            name: Items::from_slice(alloc, name)?,
            place,
        }),
        Some(Attach::Interval { unit, number }) => Ok(Point::Interval {
            unit,
            number,
            place,
        }),
        None => unreachable!(),
    }
}

/// The point that a token is, which is of this class.
pub fn point_of(
    alloc: Global,
    class: Class,
    kind: &TokenKind,
    place: Place,
) -> Result<Point, Memory>
    requires class { class ≡ class_of kind.now }
    requires point { is_point class ≡ true }
    ensures { IfOk result (λ point. point ≡ point_of class kind.now place) }
{
    match class {
        Class::BeginWord => Ok(Point::Begin { place }),
        Class::EndWord => Ok(Point::End { place }),
        _ => match kind {
            TokenKind::Attach(bytes) => attached(alloc, bytes.as_slice(), place),
            _ => unreachable!(),
        },
    }
}

fn place_of_point(point: &Point) -> Place
    ensures { result ≡ place_of_point point.now }
{
    match point {
        Point::Begin { place }
        | Point::End { place }
        | Point::Tracepoint { place, .. }
        | Point::Interval { place, .. } => *place,
    }
}

/// Where the first of some points stands, of which there is one at least.
pub fn place_of_points(points: &[Point]) -> Place
    requires { 0 < length points.now }
    ensures { result ≡ place_of_points points.now }
{
    match points {
        [] => unreachable!(),
        [point, ..] => place_of_point(point),
    }
}
