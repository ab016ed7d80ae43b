//! Tests of the top call: what no worked case shows, since files or sinks fail, memory runs out, steps are held up, or steps and programs are
//! looked at.
#![tactic(auto)]

#[cfg(test)]
mod files;
#[cfg(test)]
mod machine;
#[cfg(test)]
mod programs;
#[cfg(test)]
mod side_by_side;
#[cfg(test)]
mod steps;
#[cfg(test)]
mod tests;
