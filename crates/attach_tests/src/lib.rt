//! Tests of what the probes of scripts are attached to.
#![tactic(auto)]

#[cfg(test)]
mod bodies;
#[cfg(test)]
mod many;
#[cfg(test)]
mod refusals;
#[cfg(test)]
mod scripts;
#[cfg(test)]
mod ticks;
