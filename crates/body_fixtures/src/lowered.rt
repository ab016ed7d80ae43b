// Runs of lowered bodies by their typed instructions, through the port.
ghost use Rattle.std.specs.Prelude.{◌≡◌, ◌≤◌, Some};
ghost use Rattle.std.specs.Option.{option_copied};
ghost use Rattle.ir_code.specs.declared.probe.IrProbe.{IrProbe as Probe};
ghost use Rattle.ir_code.specs.Serving.{payload_need};
ghost use Rattle.walk_meaning.specs.Served.{least_length};

use crate::moments::{Moment, context_of, is_long};
use crate::port::port_of;
use crate::scripts::typed_of;
use crate::walks::{Made, walk_text};
use crate::worked::{Row, replies_of};
use bt_core::items::Items;
use bt_core::step::Reply;
use bt_ir::run::run_ir;
use bt_lower::lower::lower;
use ir_code::probe::IrProbe;
use std::alloc::Global;
use std::test::Fail;
use std::time::{Clock, Duration, Instant};
use typed_tree::body::TypedBody;
use typed_tree::script::Typed;

fn run(
    alloc: Global,
    body: &TypedBody,
    probe: &IrProbe,
    moment: Moment,
    replies: Items<Reply>,
) -> Result<Made, Fail>
    requires { payload_need probe.now.blocks.list ≤ least_length body.now.layout }
{
    let payload = moment.payload;
    if payload.len() > 4096 || !is_long(&body.layout, payload) || moment.actor >= moment.actors {
        return Err(Fail::from("no moment of this body"));
    }
    let context = context_of(moment, payload.len() as u32);
    let mut port = port_of(alloc, &probe.maps, moment, replies)?;
    let (actor, actors) = (moment.actor, moment.actors);
    let ending = run_ir(alloc, probe, &context, payload, actor, actors, &mut port)?;
    Ok((ending, port.steps))
}

fn run_lowered(
    alloc: Global,
    body: &TypedBody,
    probe: Option<&IrProbe>,
    moment: Moment,
    replies: Items<Reply>,
) -> Result<Made, Fail>
    requires { (p : Probe) → option_copied probe ≡ Some p → payload_need p.blocks.list ≤ least_length body.now.layout }
{
    match probe {
        Some(probe) => run(alloc, body, probe, moment, replies),
        None => Err(Fail::from("no such probe")),
    }
}

fn run_typed(
    alloc: Global,
    typed: &Typed,
    number: usize,
    moment: Moment,
    replies: Items<Reply>,
) -> Result<Made, Fail> {
    let probes = lower(alloc, typed)?;
    match typed.bodies.get(number) {
        Some(body) => run_lowered(alloc, body, probes.get(number), moment, replies),
        None => Err(Fail::from("no such body")),
    }
}

/// The run of a body of a script's text, by its number, as it is lowered, under these replies.
///
/// # Errors
///
/// Those of [`typed_of`], that there is no such body or the moment is none of it, or want of memory, also where a reply is of
/// another kind.
pub fn run_text(
    alloc: Global,
    text: &[u8],
    number: usize,
    moment: Moment,
    replies: Items<Reply>,
) -> Result<Made, Fail> {
    let typed = typed_of(alloc, text)?;
    run_typed(alloc, &typed, number, moment, replies)
}

/// Whether the run of a worked body as it is lowered and its walk make the same steps, so many, and end so.
///
/// # Errors
///
/// Those of [`run_text`].
pub fn runs_as_walked(alloc: Global, row: &Row) -> Result<bool, Fail> {
    let (text, number, moment, numbers, count, ending) = *row;
    let walked = walk_text(alloc, text, number, moment, replies_of(alloc, numbers)?)?;
    let ran = run_text(alloc, text, number, moment, replies_of(alloc, numbers)?)?;
    let same = walked.0 == ran.0 && walked.1.as_slice() == ran.1.as_slice();
    Ok(same && ran.0 == ending && ran.1.len() == count)
}

/// The one body of a script, as it is lowered.
///
/// # Errors
///
/// Those of [`typed_of`], or that the script has another number of bodies.
pub fn probe_of(alloc: Global, text: &[u8]) -> Result<IrProbe, Fail> {
    let typed = typed_of(alloc, text)?;
    let mut probes = lower(alloc, &typed)?.into_vec();
    if probes.len() > 1 {
        return Err(Fail::from("more than one body"));
    }
    match probes.pop() {
        Some(probe) => Ok(probe),
        None => Err(Fail::from("no body")),
    }
}

/// How many bodies a script has, and how long their lowering takes.
///
/// # Errors
///
/// Those of [`typed_of`], or that the clock cannot be read.
pub fn lowering_time(
    clock: &impl Clock,
    alloc: Global,
    text: &[u8],
) -> Result<(usize, Duration), Fail> {
    let typed = typed_of(alloc, text)?;
    let begun = Instant::now(clock)?;
    let probes = lower(alloc, &typed)?;
    let taken = begun.elapsed(clock)?;
    Ok((probes.len(), taken))
}
