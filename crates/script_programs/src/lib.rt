//! The programs of a script: one for each body, which keeps it.
#![tactic(auto)]

pub mod error;
pub mod folding;
pub mod laws;
pub mod programs;
pub mod sizes;
