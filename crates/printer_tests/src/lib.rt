//! Tests of what is printed, where no run shows it: the worked cases of `bt_cases` show the rest.
#![tactic(auto)]

#[cfg(test)]
mod ends;
#[cfg(test)]
mod worked;
