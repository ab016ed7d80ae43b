// Probes and scripts, by the section on probes of the bpftrace language reference. The place of a node is that of its first token.
use crate::expr::Expr;
use crate::stmt::Block;
use bt_core::items::Items;
use bt_core::place::Place;

/// The unit of an interval's number: seconds, milliseconds, microseconds, or times a second.
#[derive(Clone, Copy)]
pub enum Unit {
    S,
    Ms,
    Us,
    Hz,
}

/// What a probe is attached to. The system and the name of a tracepoint may hold `*`.
pub enum Point {
    Begin {
        place: Place,
    },
    End {
        place: Place,
    },
    Tracepoint {
        system: Items<u8>,
        name: Items<u8>,
        place: Place,
    },
    Interval {
        unit: Unit,
        number: u64,
        place: Place,
    },
}

// Written out, so that it is one call wherever such a value is let go.
impl Drop for Point {
    fn drop(self) {
        match self {
            Point::Begin { place: _ }
            | Point::End { place: _ }
            | Point::Tracepoint {
                system: _,
                name: _,
                place: _,
            }
            | Point::Interval {
                unit: _,
                number: _,
                place: _,
            } => {}
        }
    }
}

/// Points, the condition under which the block is run, and the block.
pub struct Probe {
    pub points: Items<Point>,
    pub predicate: Option<Expr>,
    pub block: Block,
    pub place: Place,
}

// Written out, so that it is one call wherever such a value is let go.
impl Drop for Probe {
    fn drop(self) {
        let Self {
            points: _,
            predicate: _,
            block: _,
            place: _,
        } = self;
    }
}

/// The probes of a script in their order.
#[derive(Drop)]
pub struct Script {
    pub probes: Items<Probe>,
}
