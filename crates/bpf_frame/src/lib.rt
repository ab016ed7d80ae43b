//! Where the values of a body in typed instructions lie in its frame.
#![tactic(auto)]

pub mod error;
pub mod frame;
pub mod placing;
pub mod registers;
mod sizes;
