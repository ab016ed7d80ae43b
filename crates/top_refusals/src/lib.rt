//! Why a call is refused: each refusal with its exit status, and the line that tells it.
#![tactic(auto)]

pub mod limits;
mod line;
pub mod refusal;
pub mod tell;
