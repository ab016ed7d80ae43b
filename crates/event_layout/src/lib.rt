//! The layout of an event, the tracepoint that it belongs to, and what the text of a tracepoint's format means.
//!
//! The texts are those of `events/SYSTEM/EVENT/format` in the tracefs of Linux.
#![tactic(auto)]

pub mod error;
pub mod field;
pub mod format;
pub mod layout;
