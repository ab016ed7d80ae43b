//! Typed scripts: trees in which each map, variable, field and format is found, and each operand has its type.
#![tactic(auto)]

pub mod body;
pub mod expr;
pub mod kind;
pub mod script;
pub mod stmt;
