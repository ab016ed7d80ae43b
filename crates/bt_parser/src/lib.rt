//! The parser of scripts: the tree of a list of tokens, or the place where no script goes on.
#![tactic(auto)]

mod agg;
mod answer;
mod assign;
mod attach;
mod block;
mod call;
mod classes;
mod cursor;
mod expr;
mod fault;
mod leaf;
mod nesting;
pub mod parse;
mod point;
mod probe;
mod script;
mod simple;
mod tables;
