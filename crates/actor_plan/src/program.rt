// The programs of actors.
ghost use Rattle.std.specs.Prelude.{◌≡◌, ◌≤◌, ◌<◌, ◌+◌, ◌*◌, ◌∷◌, [], Some, IfOk, length, slice_get};
ghost use Rattle.bt_core.specs.declared.limits.TheConstants.{BODIES as MOST_BODIES, EVENTS as MOST_EVENTS, TICKS as MOST_TICKS};
ghost use Rattle.bt_core.specs.Interaction.{Performed};
ghost use Rattle.actor_plan.specs.Agendas.{AreInTurn};
ghost use Rattle.actor_plan.specs.Programs.{actor_program, begin_program, end_program, item_work, items_program};
ghost use Rattle.actor_plan.specs.Ready.{IsReady};

use crate::agenda::{Agenda, AgendaItem};
use crate::bodies::Bodies;
use crate::clock::goes_on;
use crate::context::{context_of_begin, context_of_end};
use crate::in_turn::run_in_turn;
use crate::item::run_item;
use crate::limits::RUN_INSTRUCTIONS;
use crate::outcome::Outcome;
use bt_ast::attached::Attached;
use bt_core::memory::Memory;
use bt_core::port::Port;
use recordings::recording::{CpuTrack, Recording};
use std::alloc::Global;

/// Takes one item of a CPU's agenda, as the program of that item alone: where the script has an exit, it is first checked
/// whether to go on.
///
/// [`Memory`] is the one error. The steps that were then made are the first of the program's.
pub fn take_item<B: Bodies, P: Port>(
    alloc: Global,
    bodies: &mut B,
    recording: &Recording,
    attached: &Attached,
    track: &CpuTrack,
    exits: bool,
    item: AgendaItem,
    port: &mut P,
) -> Result<Outcome, Memory>
    requires ready { IsReady (B.plan bodies.old) recording.now attached.now (P.fixed port.old).setting }
    requires on_cpu { slice_get recording.now.cpus (B.plan bodies.old).actor ≡ Some track.now }
    ensures performed { Performed (items_program exits (item_work (B.plan bodies.old) recording.now attached.now track.now) (item ∷ []))
        (P.steps port.old) (P.steps port.new) result }
    ensures few { IfOk result (λ taken. taken.instructions ≤ MOST_BODIES * RUN_INSTRUCTIONS) }
    ensures port_kept { P.fixed port.new ≡ P.fixed port.old }
    ensures plan_kept { B.plan bodies.new ≡ B.plan bodies.old }
{
    if !goes_on(alloc, exits, port)? {
        return Ok(Outcome {
            to_end: false,
            instructions: 0,
        });
    }
    let instructions = run_item(alloc, bodies, recording, attached, track, item, port)?;
    Ok(Outcome {
        to_end: true,
        instructions,
    })
}

/// Takes the items of an agenda, one after the other. Where the script has an exit, the program ends at the first item whose
/// check finds a stop.
fn run_items<B: Bodies, P: Port>(
    alloc: Global,
    bodies: &mut B,
    recording: &Recording,
    attached: &Attached,
    track: &CpuTrack,
    exits: bool,
    mut items: Agenda<'_>,
    port: &mut P,
) -> Result<Outcome, Memory>
    requires ready { IsReady (B.plan bodies.old) recording.now attached.now (P.fixed port.old).setting }
    requires on_cpu { slice_get recording.now.cpus (B.plan bodies.old).actor ≡ Some track.now }
    requires few { length items ≤ MOST_EVENTS + MOST_TICKS }
    ensures performed { Performed (items_program exits (item_work (B.plan bodies.old) recording.now attached.now track.now) items.entry)
        (P.steps port.old) (P.steps port.new) result }
    ensures port_kept { P.fixed port.new ≡ P.fixed port.old }
    ensures plan_kept { B.plan bodies.new ≡ B.plan bodies.old }
{
    let mut instructions = 0;
    while let Some(item) = items.next() {
        let taken = take_item(alloc, bodies, recording, attached, track, exits, item, port)?;
        instructions += taken.instructions;
        if !taken.to_end {
            return Ok(Outcome {
                to_end: false,
                instructions,
            });
        }
    }
    Ok(Outcome {
        to_end: true,
        instructions,
    })
}

/// Runs the whole program of the CPU at a place: its agenda, item by item. Gives whether it went on to its end, and the sum of
/// the instructions of the bodies that were run.
///
/// [`Memory`] is the one error. The steps that were then made are the first of the program's.
pub fn run_cpu<B: Bodies, P: Port>(
    alloc: Global,
    bodies: &mut B,
    recording: &Recording,
    attached: &Attached,
    cpu: u32,
    exits: bool,
    port: &mut P,
) -> Result<Outcome, Memory>
    requires ready { IsReady (B.plan bodies.old) recording.now attached.now (P.fixed port.old).setting }
    requires in_turn { AreInTurn attached.now.ticks }
    requires few_ticks { length attached.now.ticks ≤ MOST_TICKS }
    requires known { cpu < length recording.now.cpus }
    requires actor { (B.plan bodies.old).actor ≡ cpu }
    ensures performed { Performed (actor_program (B.plan bodies.old) exits recording.now attached.now) (P.steps port.old) (P.steps port.new) result }
    ensures port_kept { P.fixed port.new ≡ P.fixed port.old }
    ensures plan_kept { B.plan bodies.new ≡ B.plan bodies.old }
{
    let items = Agenda::new(recording, attached, cpu);
    let track = &recording.cpus.as_slice()[cpu as usize];
    run_items(
        alloc, bodies, recording, attached, track, exits, items, port,
    )
}

/// Runs the bodies of `BEGIN`, in the order of the script, and gives the sum of their instructions.
///
/// [`Memory`] is the one error. The steps that were then made are the first of the bodies'.
pub fn run_begin<B: Bodies, P: Port>(
    alloc: Global,
    bodies: &mut B,
    recording: &Recording,
    attached: &Attached,
    port: &mut P,
) -> Result<u64, Memory>
    requires ready { IsReady (B.plan bodies.old) recording.now attached.now (P.fixed port.old).setting }
    ensures performed { Performed (begin_program (B.plan bodies.old) recording.now attached.now) (P.steps port.old) (P.steps port.new) result }
    ensures few { IfOk result (λ count. count ≤ MOST_BODIES * RUN_INSTRUCTIONS) }
    ensures port_kept { P.fixed port.new ≡ P.fixed port.old }
    ensures plan_kept { B.plan bodies.new ≡ B.plan bodies.old }
{
    let context = context_of_begin(recording);
    run_in_turn(
        alloc,
        bodies,
        attached.begin.as_slice(),
        &context,
        &[],
        port,
    )
}

/// Runs the bodies of `END`, in the order of the script, and gives the sum of their instructions.
///
/// [`Memory`] is the one error. The steps that were then made are the first of the bodies'.
pub fn run_end<B: Bodies, P: Port>(
    alloc: Global,
    bodies: &mut B,
    recording: &Recording,
    attached: &Attached,
    port: &mut P,
) -> Result<u64, Memory>
    requires ready { IsReady (B.plan bodies.old) recording.now attached.now (P.fixed port.old).setting }
    ensures performed { Performed (end_program (B.plan bodies.old) recording.now attached.now) (P.steps port.old) (P.steps port.new) result }
    ensures few { IfOk result (λ count. count ≤ MOST_BODIES * RUN_INSTRUCTIONS) }
    ensures port_kept { P.fixed port.new ≡ P.fixed port.old }
    ensures plan_kept { B.plan bodies.new ≡ B.plan bodies.old }
{
    let context = context_of_end(recording);
    run_in_turn(alloc, bodies, attached.end.as_slice(), &context, &[], port)
}
