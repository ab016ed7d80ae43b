// Entries of a lock's history.
use bt_core::step::{Op, Reply};

/// One call that was answered, as contracts speak of it. No program makes a value of it.
pub struct Entry {
    /// The number of the caller.
    pub caller: u32,
    /// The number that the caller gave, above which the stamp lies.
    pub floor: u64,
    /// The stamp that the call was given: one more than the greater of the floor and the stamp before.
    pub stamp: u64,
    pub op: Op,
    pub reply: Reply,
}
