//! Where a written list of entries stops that is followed through the programs, and whether it tells the steps of a run.
#![tactic(auto)]

pub mod check;
pub mod ends;
pub mod follow_all;
pub mod laws;
pub mod stops;
