//! Jobs, and else what a whole run of a script over a recording stands on, on one thread or on many; and what it writes, in either form:
//! the text, or JSON lines.
#![tactic(auto)]

pub mod bodies;
pub mod form;
pub mod held;
pub mod job;
pub mod json_lines;
