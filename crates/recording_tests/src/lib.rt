//! Tests of format texts and of recordings, through the public calls of their crates. Which bytes and texts are refused, and what
//! fields of payloads are, worked cases of `bt_cases` show.
#![tactic(auto)]

#[cfg(test)]
mod containers;
#[cfg(test)]
mod formats;
#[cfg(test)]
mod looks;
#[cfg(test)]
mod texts;
#[cfg(test)]
mod threads;
