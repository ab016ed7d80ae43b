//! The helpers that BPF code calls: each is a list of steps through a port.
#![tactic(auto)]

mod arguments;
pub mod helper;
pub mod helper_port;
mod helpers;
mod printing;
mod reading;
pub mod running;
mod steps;
