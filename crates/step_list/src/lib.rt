//! Lists of the steps of a run, in 24 bytes a step.
#![tactic(auto)]

pub mod deed;
pub mod emits;
mod held;
mod keys;
pub mod list;
mod marking;
