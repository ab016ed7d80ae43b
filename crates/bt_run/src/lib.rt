//! Whole runs of a script over a recording, on one thread.
#![tactic(auto)]

pub mod port;
pub mod run;
mod serial;
