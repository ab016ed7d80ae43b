//! Tests of the types of scripts.
#![tactic(auto)]

#[cfg(test)]
mod rules;
