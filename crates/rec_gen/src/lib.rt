//! Made recordings: events drawn from a seed. And the script of the command `big`, which nothing refuses over them.
#![tactic(auto)]

mod draws;
mod event;
mod format;
pub mod generate;
pub mod laws;
pub mod script;
pub mod script_laws;
