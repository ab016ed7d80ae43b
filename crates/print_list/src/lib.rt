//! Lists of printed items, in a few bytes a value.
#![tactic(auto)]

pub mod list;
mod reading;
mod writing;
