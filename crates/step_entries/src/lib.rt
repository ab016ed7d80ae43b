//! What an account tells of steps: all but their replies and items.
#![tactic(auto)]

pub mod blank;
