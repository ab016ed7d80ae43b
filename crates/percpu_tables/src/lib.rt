//! The tables of all actors, each behind a lock of its own.
#![tactic(auto)]

mod objects;
pub mod tables;
