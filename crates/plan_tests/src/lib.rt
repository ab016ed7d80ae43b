//! Tests of agendas, through the public calls of their crate. What bodies see of their moment a worked case of `bt_cases` shows.
#![tactic(auto)]

#[cfg(test)]
mod agendas;
