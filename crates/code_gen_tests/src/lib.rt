//! Tests of the code of bodies: their frames, their programs, and runs of these.
#![tactic(auto)]

#[cfg(test)]
mod bodies;
#[cfg(test)]
mod frames;
#[cfg(test)]
mod programs;
#[cfg(test)]
mod runs;
