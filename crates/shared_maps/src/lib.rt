//! The parts of all shared maps, each behind a lock of its own.
#![tactic(auto)]

pub mod maps;
mod objects;
