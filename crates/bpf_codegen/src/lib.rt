//! Makes BPF code of bodies in typed instructions.
#![tactic(auto)]

mod exits;
mod fields;
pub mod generate;
mod instrs;
mod laying;
mod maps;
mod moves;
mod operators;
mod output;
mod single;
mod tops;
mod variables;
mod waiting;
mod words;
