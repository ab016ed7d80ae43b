//! The typed instructions that bodies are lowered to, and what they do.
#![tactic(auto)]

pub mod blocks;
pub mod figures;
pub mod instr;
pub mod probe;
pub mod state;
