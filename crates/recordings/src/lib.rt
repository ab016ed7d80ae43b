//! Recordings and the entries of each CPU: the types, which recordings are valid, and how each is spelled.
#![tactic(auto)]

pub mod entries;
pub mod error;
pub mod limits;
pub mod number;
pub mod part;
pub mod recording;
