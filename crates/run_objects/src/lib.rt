//! The objects of a run, each with its clock, and what is read of them once the run has ended.
#![tactic(auto)]

pub mod closed;
pub mod ends;
pub mod new_objects;
mod numbers;
pub mod objects;
pub mod own;
mod reads;
