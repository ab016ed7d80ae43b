//! All actors of a run on threads: the main actor before, the CPUs side by side, and the main actor after.
#![tactic(auto)]

pub mod actors;
mod main_actor;
mod side_by_side;
pub mod tasks;
pub mod turns;
