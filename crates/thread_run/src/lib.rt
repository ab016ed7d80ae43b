//! Whole runs of a script over a recording with each CPU on a thread of its own.
#![tactic(auto)]

mod bodies;
mod closed;
mod made;
pub mod run;
mod sets;
