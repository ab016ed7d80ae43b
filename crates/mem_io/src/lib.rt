//! Files and outputs in memory, for tests: shelves that hold their files, and sinks that hold what they took.
#![tactic(auto)]

mod calls;
pub mod mem_shelf;
pub mod mem_sink;
