//! Tests of lowering: runs of lowered bodies beside walks, the two sums, and a large script.
#![tactic(auto)]

#[cfg(test)]
mod bodies;
#[cfg(test)]
mod folds;
#[cfg(test)]
mod large;
#[cfg(test)]
mod sums;
