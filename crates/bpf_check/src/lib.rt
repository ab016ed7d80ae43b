//! An independent check of BPF code, which knows nothing of how the code was made: code is accepted
//! where an assignment of what is known at its slots shows that it neither traps nor runs on.
#![tactic(auto)]

pub mod calls;
pub mod check;
pub mod effect;
pub mod gate;
pub mod known;
pub mod laws;
pub mod settle;
pub mod table;
pub mod ways;
