//! The types of expressions: what is known at a place of a script, the rules of types, and the first fault of an
//! expression or its typed tree.
#![tactic(auto)]

pub mod expr;
pub mod fault;
pub mod field;
pub mod known;
pub mod leaf;
pub mod maps;
pub mod printed;
pub mod rules;
pub mod variable;
pub mod variables;
