// What lies in a lock's table, and what a seat at it knows.
use crate::entry::Entry;
use std::collections::LinkedList;
use std::marker::Model;
use std::snapshot::Snapshot;

/// Where a caller is in a call. No value of it is made.
pub enum Stage {
    Idle,
    /// It has this ticket.
    Waits(u64),
    /// It has the turn, and this was the history when it entered.
    Holds(LinkedList<Entry>),
}

/// What was known of a caller when its seat was taken in. No value of it is made.
pub struct Past {
    pub caller: u32,
    pub mine: LinkedList<Entry>,
    pub seen: LinkedList<Entry>,
}

/// What a seat knows. No value of it is made.
pub struct View {
    /// The seat is a caller's.
    pub live: bool,
    pub caller: u32,
    pub stage: Stage,
    /// The caller's own entries.
    pub mine: LinkedList<Entry>,
    /// A beginning of the history.
    pub seen: LinkedList<Entry>,
    /// How many callers were made, in the seat that makes them, and else 0.
    pub made: u32,
    /// The callers whose seats it has taken in.
    pub taken: LinkedList<Past>,
}

/// Room of two cache lines that says nothing. Contracts see nothing in it.
pub struct Apart {
    words: [u64; 16],
}

// Written out, so that it is one call wherever such a value is let go.
impl Drop for Apart {
    fn drop(self) {
        let Self { words: _ } = self;
    }
}

impl Model for Apart {
    ghost Value = { Unit {0} };

    ghost view = { λ _. tt };
}

impl Apart {
    /// Such room.
    pub fn new() -> Apart {
        Apart { words: [0; 16] }
    }
}

/// What lies in the slot: the object, and the last stamp that was given. Behind them is room, so that callers of one lock do not wait for a
/// cache line that callers of another lock write, whose slot lies beside this one.
#[derive(Drop)]
pub struct Desk<O: Drop> {
    pub object: O,
    pub stamp: u64,
    pub apart: Apart,
}

/// What the rule is told when a lock is made: an object of the same kind, and the number of callers.
#[derive(Drop)]
pub struct About<O> {
    pub first: Snapshot<O>,
    pub callers: u32,
}
