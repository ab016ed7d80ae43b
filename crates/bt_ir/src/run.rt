// The run of a body.
ghost use Rattle.std.specs.Prelude.{◌≡◌, ◌<◌, IfOk, IsTrue, length};
ghost use Rattle.bt_core.specs.Interaction.{Performed};
ghost use Rattle.ir_code.specs.Meaning.{way_of, after_exit, fresh, blocks_run, ir_run};
ghost use Rattle.bt_ir.specs.Running.{MayAsk, AllReady, CanRun, scene_in};
ghost use Rattle.map_ops.specs.Values.{number_of};
ghost use Rattle.ir_code.specs.Ways.{lead_forward};
ghost use Rattle.ir_code.specs.Meaning.{count_way, counted};
ghost use Rattle.bt_core.specs.declared.value.Value.TheVariants as values;

use crate::stack::{pop, put};
use crate::step::{View, run_instrs};
use bt_core::context::Context;
use bt_core::ending::Ending;
use bt_core::items::Items;
use bt_core::limits::LOOP_TURNS;
use bt_core::map::Shape;
use bt_core::memory::Memory;
use bt_core::port::Port;
use bt_core::value::Value;
use ir_code::blocks::{Block, Exit};
use ir_code::probe::IrProbe;
use ir_code::state::{State, Way};
use map_ops::values::{holds, number_of, unassigned};
use std::alloc::Global;

/// Where a count leads: above 0 on to a block, and else out of its loop.
fn count_way(block: usize, leave: usize, value: &Value) -> Way
    ensures { result ≡ count_way block leave (number_of value.now) }
{
    if number_of(value) > 0 {
        Way::To(block)
    } else {
        Way::To(leave)
    }
}

/// A count after a turn.
fn counted(value: &Value) -> Value
    ensures { result ≡ values.Int (counted (number_of value.now)) }
{
    let n = number_of(value);
    if n > 0 {
        Value::Int(n - 1)
    } else {
        Value::Int(n)
    }
}

/// Takes an exit, and answers where it leads.
fn leave(exit: Exit, state: &mut State) -> Result<Way, Memory>
    ensures way { IfOk result (λ way. way ≡ way_of exit state.old) }
    ensures state { IfOk result (λ way. state.new ≡ after_exit exit state.old) }
{
    match exit {
        Exit::Goto(block) => Ok(Way::To(block)),
        Exit::Branch { first, second } => {
            let value = pop(&mut state.stack);
            if holds(number_of(&value)) {
                Ok(Way::To(first))
            } else {
                Ok(Way::To(second))
            }
        }
        Exit::Count { block, leave } => {
            let value = pop(&mut state.stack);
            put(counted(&value), state)?;
            Ok(count_way(block, leave, &value))
        }
        Exit::Gate { block, cut } => {
            if state.turns == 0 {
                Ok(Way::To(cut))
            } else {
                state.turns -= 1;
                Ok(Way::To(block))
            }
        }
        Exit::Again(head) => Ok(Way::To(head)),
        Exit::End(ending) => Ok(Way::Ends(ending)),
    }
}

/// The state at the start of a run.
fn fresh(alloc: Global, shapes: &[Shape]) -> Result<State, Memory>
    ensures { IfOk result (λ state. state ≡ fresh shapes.now) }
{
    let mut variables = Items::new(alloc);
    for shape in shapes {
        variables.push(unassigned(*shape))?;
    }
    Ok(State {
        variables,
        turns: LOOP_TURNS,
        stack: Items::new(alloc),
    })
}

/// Runs blocks from the last one on.
fn run_blocks<P: Port>(
    alloc: Global,
    view: &View<'_>,
    blocks: &[Block],
    state: &mut State,
    port: &mut P,
) -> Result<Ending, Memory>
    requires led { IsTrue (lead_forward blocks.now) }
    requires ready { AllReady (P.fixed port.old).setting view.now blocks.now }
    requires can { MayAsk (P.fixed port.old).setting (blocks_run blocks.now (scene_in view.now) state.old) }
    ensures performed { Performed (blocks_run blocks.now (scene_in view.now) state.old) (P.steps port.old) (P.steps port.new) result }
    ensures kept { P.fixed port.new ≡ P.fixed port.old }
{
    let mut at = blocks.len() - 1;
    loop {
        let block = &blocks[at];
        run_instrs(alloc, view, block.instrs.as_slice(), state, port)?;
        match leave(block.exit, state)? {
            Way::To(next) => at = next,
            Way::Ends(ending) => return Ok(ending),
        }
    }
}

/// Performs the run of a body through a port, and answers how it ends.
///
/// `payload` is the event's, whose length the context names. `actor` is the actor that the port makes steps for, of `actors` in
/// all. After [`Memory`] the steps made are the first of the run.
pub fn run_ir<P: Port>(
    alloc: Global,
    probe: &IrProbe,
    context: &Context,
    payload: &[u8],
    actor: u32,
    actors: u32,
    port: &mut P,
) -> Result<Ending, Memory>
    requires { CanRun (P.fixed port.old).setting probe.now context.now payload.now actor actors }
    ensures performed { Performed (ir_run probe.now context.now payload.now actor actors) (P.steps port.old) (P.steps port.new) result }
    ensures kept { P.fixed port.new ≡ P.fixed port.old }
{
    let mut state = fresh(alloc, probe.variables.as_slice())?;
    let view = View {
        context,
        payload,
        actor,
        actors,
        maps: probe.maps.as_slice(),
    };
    let ending = run_blocks(alloc, &view, probe.blocks.list.as_slice(), &mut state, port)?;
    Ok(ending)
}
