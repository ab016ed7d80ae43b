// How programs end.

/// How the program of an actor ended: whether the actor went on to its end, and the sum of the instructions that its bodies
/// took.
#[derive(Clone, Copy, PartialEq, Eq)]
pub struct Outcome {
    pub to_end: bool,
    pub instructions: u64,
}
