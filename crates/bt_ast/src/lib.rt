//! The trees of scripts, and what their probes are attached to.
#![tactic(auto)]

pub mod attached;
pub mod expr;
pub mod gathering;
pub mod probe;
pub mod stmt;
