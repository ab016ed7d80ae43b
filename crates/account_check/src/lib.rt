//! Whether an account of a run is true: of a script over a recording, and of what it printed.
#![tactic(auto)]

mod bodies;
mod checking;
pub mod laws;
mod reading;
mod text;
pub mod verify;
pub mod walks;
