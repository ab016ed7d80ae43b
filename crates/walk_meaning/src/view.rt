// What the run of a body sees.
use bt_core::context::Context;
use typed_tree::body::TypedBody;

/// What the run of a body sees: the body, its context and payload, the actor that runs it, and how many actors there are.
#[derive(Clone, Copy)]
pub struct View<'a> {
    pub body: &'a TypedBody,
    pub context: &'a Context,
    pub payload: &'a [u8],
    pub actor: u32,
    pub actors: u32,
}
