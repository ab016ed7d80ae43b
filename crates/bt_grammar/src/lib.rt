//! The grammar of scripts as data, the trees of token lists, and where a list is refused.
#![tactic(auto)]

pub mod class;
pub mod error;
pub mod laws;
pub mod words;
