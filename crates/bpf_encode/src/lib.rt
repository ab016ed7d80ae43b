//! BPF code as bytes: eight for each slot, as RFC 9669 encodes instructions.
//!
//! The set is that of RFC 9669 without its atomic and its packet instructions: the forms
//! that [`bpf_insn`] has. Every other opcode is refused.
#![tactic(auto)]

pub mod decode;
pub mod encode;
mod fields;
pub mod laws;
pub mod listing;
pub mod program;
mod slot_bytes;
