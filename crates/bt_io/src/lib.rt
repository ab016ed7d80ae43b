//! Where bytes come from and where they go: named files, and what takes bytes.
#![tactic(auto)]

pub mod names;
pub mod parts;
pub mod real;
pub mod shelf;
pub mod sink;
mod spans;
mod window;
