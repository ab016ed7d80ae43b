//! Tests of the walk of a body: the operations of worked scripts, under written replies.
#![tactic(auto)]

#[cfg(test)]
mod rows;
#[cfg(test)]
mod traps;
