//! One actor at work: what all actors share, an actor's port to it, and the worker of one CPU, which runs the CPU's whole program.
#![tactic(auto)]

pub mod worker;
pub mod world;
pub mod world_port;
