//! The tick clock and the output, each behind a lock of its own, and the turns of each actor at both.
#![tactic(auto)]

pub mod sides;
pub mod turns;
