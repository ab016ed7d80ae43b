//! Lowering: typed bodies as blocks of typed instructions, and the two sums of what they need.
#![tactic(auto)]

pub mod body;
pub mod body_need;
pub mod code;
pub mod lower;
pub mod need;
pub mod simple;
pub mod stmt;
pub mod value;
