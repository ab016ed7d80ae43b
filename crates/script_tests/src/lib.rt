//! Tests of printf formats and of the words of a command line.
#![tactic(auto)]

#[cfg(test)]
mod formats;
#[cfg(test)]
mod words;
