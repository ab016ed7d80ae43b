//! What the check of BPF code shows: accepted code neither traps nor runs on.
#![tactic(auto)]

pub mod laws;
