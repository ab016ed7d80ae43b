//! What a script and a recording come to before anything runs: the files of an order, read and judged, and the listing and the check of a
//! script's programs.
#![tactic(auto)]

pub mod files;
pub mod judge;
pub mod laws;
pub mod listing;
mod reader;
mod script;
mod sizes;
pub mod vetting;
