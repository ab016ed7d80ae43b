//! Tests of the bytes of accounts, through the public calls.
#![tactic(auto)]

#[cfg(test)]
mod accounts;
