//! The types of a script: its first fault in walk order, or its typed trees.
#![tactic(auto)]

mod assign;
pub mod body;
mod calls;
mod close;
mod exits;
mod gather;
mod printf;
pub mod script;
mod stmt;
mod write;
