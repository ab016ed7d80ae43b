//! Accounts of runs: the bytes of a list of steps with a text, written and read.
#![tactic(auto)]

mod call;
pub mod entries;
mod entry;
pub mod error;
mod held;
mod kind;
pub mod laws;
mod number;
mod pushing;
pub mod reading;
pub mod scope;
mod spot;
mod value;
pub mod writing;
