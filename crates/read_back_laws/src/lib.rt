//! That the text of a tree is read back as the same tree.
#![tactic(auto)]

pub mod laws;
