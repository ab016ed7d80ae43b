//! Tests of the base crates: what no clause says.
#![tactic(auto)]

#[cfg(test)]
mod memory;
#[cfg(test)]
mod outside;
