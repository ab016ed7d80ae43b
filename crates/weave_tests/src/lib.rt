//! Tests of the woven list: what no clause says.
#![tactic(auto)]

#[cfg(test)]
mod ends;
#[cfg(test)]
mod kinds;
#[cfg(test)]
mod woven;
