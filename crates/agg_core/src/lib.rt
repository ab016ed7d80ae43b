//! Aggregates of lists of numbers, and what an object answers after a list of operations.
#![tactic(auto)]

pub mod aggregation;
pub mod bucket;
mod gather;
pub mod laws;
mod merge;
