//! What the words of a command line ask for.
#![tactic(auto)]

mod commands;
mod number;
pub mod order;
pub mod read;
mod rule;
