//! The walk of a body through a port: it does what the body means.
#![tactic(auto)]

pub mod access;
pub mod body;
pub mod flow;
pub mod stmt;
pub mod value;
pub mod view;
pub mod walk;
