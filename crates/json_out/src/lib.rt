//! What a run prints, as JSON lines: the line of each item of output, those of all maps at the end of a run, and
//! the line of the number of instructions.
#![tactic(auto)]

mod buckets;
pub mod ends;
pub mod items;
mod maps;
mod objects;
mod rows;
mod text;
