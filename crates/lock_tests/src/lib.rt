//! Tests of locks: what no clause of theirs says.
#![tactic(auto)]

#[cfg(test)]
mod locks;
