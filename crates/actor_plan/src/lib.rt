//! What each actor of a run does: the agenda of a CPU, the contexts of bodies, and the programs over what runs the bodies.
#![tactic(auto)]

pub mod agenda;
pub mod bodies;
mod clock;
pub mod context;
mod in_turn;
mod item;
pub mod laws;
pub mod limits;
pub mod outcome;
pub mod program;
