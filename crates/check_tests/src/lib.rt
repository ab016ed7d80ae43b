//! Tests of the check of code, in bytes.
#![tactic(auto)]

#[cfg(test)]
mod calls;
#[cfg(test)]
mod codes;
#[cfg(test)]
mod runs;
