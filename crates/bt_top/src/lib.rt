//! The top call: from the words of a command line to the bytes written; and the call of the program, which hands it these words.
#![tactic(auto)]

mod accounts;
pub mod call;
mod made;
mod outcome;
pub mod report;
pub mod serve;
mod tasks;
mod work;
