// Walks of typed bodies through the port.
ghost use Rattle.std.specs.Prelude.{◌≡◌, ◌≤◌, All, Some, slice_get};

use crate::moments::{Moment, context_of, is_long};
use crate::port::port_of;
use crate::scripts::typed_of;
use bt_core::ending::Ending;
use bt_core::items::Items;
use bt_core::map::MapDecl;
use bt_core::step::{Reply, Step};
use bt_walk::body::walk_body;
use std::alloc::Global;
use std::test::Fail;
use typed_tree::body::TypedBody;
use typed_tree::script::Typed;

/// How a run ends, and its steps.
pub type Made = (Ending, Items<Step>);

fn walk(
    alloc: Global,
    maps: &Items<MapDecl>,
    body: &TypedBody,
    moment: Moment,
    replies: Items<Reply>,
) -> Result<Made, Fail>
    requires { All (λ m. slice_get maps.now m.0.0 ≡ Some m.1) body.now.maps }
{
    let payload = moment.payload;
    if payload.len() > 4096 || !is_long(&body.layout, payload) || moment.actor >= moment.actors {
        return Err(Fail::from("no moment of this body"));
    }
    let context = context_of(moment, payload.len() as u32);
    let mut port = port_of(alloc, maps, moment, replies)?;
    let (actor, actors) = (moment.actor, moment.actors);
    let ending = walk_body(alloc, body, &context, payload, actor, actors, &mut port)?;
    Ok((ending, port.steps))
}

fn walk_typed(
    alloc: Global,
    typed: &Typed,
    number: usize,
    moment: Moment,
    replies: Items<Reply>,
) -> Result<Made, Fail> {
    match typed.bodies.get(number) {
        Some(body) => walk(alloc, &typed.maps, body, moment, replies),
        None => Err(Fail::from("no such body")),
    }
}

/// The walk of a body of a script's text, by its number, under these replies.
///
/// # Errors
///
/// Those of [`typed_of`], that there is no such body or the moment is none of it, or want of memory, also where a reply is of
/// another kind.
pub(crate) fn walk_text(
    alloc: Global,
    text: &[u8],
    number: usize,
    moment: Moment,
    replies: Items<Reply>,
) -> Result<Made, Fail> {
    let typed = typed_of(alloc, text)?;
    walk_typed(alloc, &typed, number, moment, replies)
}
