//! Entries made as steps once more at the objects of a run: their replies, and whether their stamps and their order are right.
#![tactic(auto)]

pub mod clocks;
pub mod replay;
