//! That a script over given formats has one typing, and that a script whose types are checked can be run over its recording.
#![tactic(auto)]

pub mod laws;
pub mod typing_laws;
