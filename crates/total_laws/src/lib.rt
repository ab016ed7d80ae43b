//! Laws of what runs make: the calls of walks and programs, what reads see while others add, and the exact totals of scripts that only
//! add and print.
#![tactic(auto)]

pub mod call_laws;
pub mod laws;
pub mod read_laws;
pub mod walk_laws;
