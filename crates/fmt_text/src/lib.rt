//! Formats of `printf`: their pieces, the arguments that they want, and the text of a call.
//!
//! The formats are those of `printf` in the bpftrace language reference, in the profile of this project.
#![tactic(auto)]

pub mod arguments;
pub mod columns;
mod conversion;
pub mod laws;
pub mod piece;
mod pieces;
pub mod read;
pub mod rendering;
