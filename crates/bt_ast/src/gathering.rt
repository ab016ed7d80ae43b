// The map functions of one number, by the section on map functions of the bpftrace language reference.
ghost use Rattle.std.specs.Prelude.{◌≡◌};
ghost use Rattle.bt_ast.specs.Gatherings.{gatherings};
ghost use Rattle.bt_ast.specs.declared.gathering.TheConstants.{GATHERINGS};

use bt_core::map::AggKind;

/// A map function of one number.
#[derive(Clone, Copy, PartialEq, Eq)]
pub enum Gathering {
    Sum,
    Min,
    Max,
    Avg,
    Hist,
}

/// The map functions of one number, each with what its maps gather.
pub const GATHERINGS: [(Gathering, AggKind); 5] = [
    (Gathering::Sum, AggKind::Sum),
    (Gathering::Min, AggKind::Min),
    (Gathering::Max, AggKind::Max),
    (Gathering::Avg, AggKind::Avg),
    (Gathering::Hist, AggKind::Hist),
];

/// Each function gathers what its name says. Nothing runs.
pub fn kinds_of_calls_are()
    ensures { GATHERINGS ≡ gatherings }
{}
