//! Events of a recording: what the bytes of a payload's fields mean, and the bytes of contexts.
#![tactic(auto)]

pub mod contexts;
pub mod reading;
