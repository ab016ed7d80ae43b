//! A port that follows a written list of steps for one actor, and the programs of actors, followed through it.
#![tactic(auto)]

pub mod actors;
pub mod follow;
pub mod main_actor;
