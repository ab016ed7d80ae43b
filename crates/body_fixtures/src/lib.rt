//! What the tests of bodies have in common: scripts and moments, a port with written replies, and runs of bodies through it.
#![tactic(auto)]

pub mod lowered;
pub mod moments;
pub mod port;
mod replies;
pub mod scripts;
pub mod tables;
pub mod walks;
pub mod worked;
