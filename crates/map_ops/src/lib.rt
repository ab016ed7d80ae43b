//! What is done to maps: the objects that hold them, what is asked of those, and what the replies tell.
#![tactic(auto)]

pub mod access;
pub mod builtin;
pub mod parts;
pub mod printing;
pub mod summing;
pub mod sweep;
pub mod values;
