//! The tokens of a script.
#![tactic(auto)]

mod bytes;
pub mod error;
pub mod laws;
pub mod lexer;
pub mod line;
mod marks;
mod numbers;
mod piece;
mod position;
mod separators;
mod strings;
pub mod token;
mod words;
