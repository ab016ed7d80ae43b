//! Lists of steps that a run of a script can make up to some moment, and what can be wrong with entries that tell of one.
#![tactic(auto)]

pub mod laws;
