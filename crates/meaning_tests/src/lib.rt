//! Tests of what a script means: worked runs, computed from the definitions, and lists that are none of its interleavings.
#![tactic(auto)]

#[cfg(test)]
mod bodies;
#[cfg(test)]
mod intervals;
#[cfg(test)]
mod refused;
#[cfg(test)]
mod schedules;
#[cfg(test)]
mod scripts;
#[cfg(test)]
mod serial;
#[cfg(test)]
mod totals;
