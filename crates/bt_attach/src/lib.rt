//! What the probes of a script are attached to in a recording.
#![tactic(auto)]

pub mod attach;
mod bodies;
pub mod error;
pub mod laws;
mod marks;
pub mod pattern;
mod period;
mod probe;
mod seen;
mod ticks;
