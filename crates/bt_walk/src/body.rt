// The walk of a body.
ghost use Rattle.std.specs.Prelude.{◌≡◌, ◌++◌, IfOk, map};
ghost use Rattle.bt_core.specs.Interaction.{Performed};
ghost use Rattle.typed_tree.specs.Bodies.{predicate_parts};
ghost use Rattle.walk_meaning.specs.Stmts.{block_does};
ghost use Rattle.walk_meaning.specs.Walk.{walk, first_frame, guarded};
ghost use Rattle.bt_walk.specs.Walked.{Walked};
ghost use Rattle.walk_meaning.specs.Served.{CanWalk, IsServed, Fits, BlockFits, scene_in};

use crate::flow::ending_of;
use crate::value::number;
use crate::walk::walk_block;
use bt_core::context::Context;
use bt_core::ending::Ending;
use bt_core::items::Items;
use bt_core::limits::LOOP_TURNS;
use bt_core::map::Shape;
use bt_core::memory::Memory;
use bt_core::port::Port;
use map_ops::values::{holds, unassigned};
use std::alloc::Global;
use typed_tree::body::TypedBody;
use typed_tree::expr::NumExpr;
use typed_tree::stmt::TypedBlock;
use walk_meaning::flow::{Flow, Frame};
use walk_meaning::view::View;

/// The frame at the start of a run.
fn first_frame(alloc: Global, shapes: &[Shape]) -> Result<Frame, Memory>
    ensures { IfOk result (λ frame. frame ≡ first_frame shapes.now) }
{
    let mut variables = Items::new(alloc);
    for shape in shapes {
        variables.push(unassigned(*shape))?;
    }
    Ok(Frame {
        variables,
        turns: LOOP_TURNS,
    })
}

/// Walks the block of a body where its predicate holds, or where it has none.
fn walk_guarded<P: Port>(
    alloc: Global,
    view: &View<'_>,
    predicate: &Option<NumExpr>,
    block: &TypedBlock,
    frame: &mut Frame,
    port: &mut P,
) -> Result<Flow, Memory>
    requires served { IsServed view.now (P.fixed port.old).setting }
    requires test { Fits view.now (predicate_parts predicate.now) }
    requires fits { BlockFits view.now block.now }
    ensures walked { Walked (guarded predicate.now (block_does block.now))
        (scene_in view.now) frame.old (P.steps port.old) (P.steps port.new) result frame.new }
    ensures kept { P.fixed port.new ≡ P.fixed port.old }
{
    match predicate {
        Some(e) => {
            let test = number(alloc, view, e, frame, port)?;
            if holds(test) {
                walk_block(alloc, view, block, frame, port)
            } else {
                Ok(Flow::Next)
            }
        }
        None => walk_block(alloc, view, block, frame, port),
    }
}

/// Performs the walk of a body through a port, and answers how its run ends.
///
/// `payload` is the event's, whose length the context names; its fields are read by the body's layout. `actor` is the
/// actor that the port makes steps for, of `actors` in all. After [`Memory`] the steps made are the first of the walk.
/// It follows the bpftrace language reference's sections on expressions, statements, maps and map functions.
pub fn walk_body<P: Port>(
    alloc: Global,
    body: &TypedBody,
    context: &Context,
    payload: &[u8],
    actor: u32,
    actors: u32,
    port: &mut P,
) -> Result<Ending, Memory>
    requires { CanWalk (P.fixed port.old).setting body.now context.now payload.now actor actors }
    ensures performed { Performed (walk body.now context.now payload.now actor actors) (P.steps port.old) (P.steps port.new) result }
    ensures kept { P.fixed port.new ≡ P.fixed port.old }
{
    let view = View {
        body,
        context,
        payload,
        actor,
        actors,
    };
    let mut frame = first_frame(alloc, body.tree.variables.as_slice())?;
    let tree = &body.tree;
    let flow = walk_guarded(alloc, &view, &tree.predicate, &tree.block, &mut frame, port)?;
    Ok(ending_of(flow))
}
