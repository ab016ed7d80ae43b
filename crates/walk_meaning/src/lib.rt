//! What a body means: the operations that it makes and how its run ends, and what holds of all walks.
#![tactic(auto)]

pub mod flow;
pub mod laws;
pub mod view;
