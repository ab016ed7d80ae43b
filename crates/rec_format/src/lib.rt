//! The reader and the writer of recordings: a header, event formats, and the entries of each CPU.
#![tactic(auto)]

mod check;
mod entries;
mod formats;
mod jumps;
pub mod laws;
pub mod made;
mod number;
mod part;
mod parted;
pub mod reading;
pub mod sections;
mod table;
mod tracks;
pub mod writing;
