//! Tests of the workers of two CPUs: where the bodies of one run out of memory, the other one goes on to its end, and all locks are closed.
#![tactic(auto)]

#[cfg(test)]
mod failing;
#[cfg(test)]
mod locks;
#[cfg(test)]
mod runs;
#[cfg(test)]
mod script;
#[cfg(test)]
mod tests;
#[cfg(test)]
mod told;
#[cfg(test)]
mod workers;
