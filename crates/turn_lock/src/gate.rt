// What is told of each turn while it is held.
use bt_core::step::ObjectId;
use std::sync::Wait;

/// Is told of each turn that is held, and may hold it up.
///
/// No clause of a lock depends on what a gate does: a gate that never returns keeps the turn, and
/// the calls behind it wait.
pub trait Gate {
    /// Called once in each call of a lock, while that call holds the turn and before it applies its
    /// operation, with the turn's caller number and the lock's object.
    fn held<R: Wait>(&self, rt: &R, actor: u32, object: ObjectId);
}

/// The gate that holds nobody up.
#[derive(Clone, Copy)]
pub struct Open;

impl Gate for Open {
    fn held<R: Wait>(&self, _rt: &R, _actor: u32, _object: ObjectId) {}
}
