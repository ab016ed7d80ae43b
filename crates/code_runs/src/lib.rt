//! Replays whose bodies ask the same, the bodies of a script by the BPF code that was made of them, and what programs keep of a script.
#![tactic(auto)]

pub mod code_bodies;
pub mod codes;
pub mod laws;
pub mod replay_laws;
mod run_body;
mod script_port;
