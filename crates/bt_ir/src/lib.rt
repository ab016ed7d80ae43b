//! The run of typed instructions through a port: the reference that tests compare code with.
#![tactic(auto)]

pub mod run;
pub mod stack;
pub mod step;
