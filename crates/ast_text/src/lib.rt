//! The texts of the trees of scripts.
#![tactic(auto)]

pub mod text;
mod words;
mod write_agg;
mod write_expr;
mod write_stmt;
