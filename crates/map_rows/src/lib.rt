//! The rows of a map as one list: merged from the replies of the objects that hold parts of it, which rows
//! a map can hold, and the numbers of an aggregation's rows.
#![tactic(auto)]

pub mod laws;
pub mod merging;
pub mod numbers;
