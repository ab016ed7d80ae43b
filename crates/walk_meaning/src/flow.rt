// Where a statement leads, and what a run keeps.
use bt_core::ending::Ending;
use bt_core::items::Items;
use bt_core::value::Value;

/// Where a statement leads: to the next one, out of its loop, to the next turn of its loop, or to the end of the run.
#[derive(Clone, Copy)]
pub enum Flow {
    Next,
    Break,
    Continue,
    Stop(Ending),
}

/// What the run of a body keeps: its variables by their numbers, and how many loop turns are left.
#[derive(Drop)]
pub struct Frame {
    pub variables: Items<Value>,
    pub turns: u32,
}
