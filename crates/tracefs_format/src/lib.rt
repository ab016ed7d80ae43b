//! The reader of event format texts, which tracefs shows of a tracepoint.
//!
//! The texts are those of `events/SYSTEM/EVENT/format` in the tracefs of Linux.
#![tactic(auto)]

mod bytes;
mod declaration;
pub mod laws;
mod line;
mod lines;
pub mod reading;
mod table;
mod words;
