// Scripts: all bodies in their order, and what they are as typed ones.
ghost use Rattle.std.specs.Prelude.{◌≡◌, All, IfErr, IfOk, IsTrue, MatchResult, None, Some, map, true};
ghost use Rattle.std.specs.List.{list_all};
ghost use Rattle.typed_tree.specs.Scope.{is_fine_decl};
ghost use Rattle.expr_types.specs.declared.fault.Fault.{Fault as FaultValue};
ghost use Rattle.expr_types.specs.declared.known.Printed.{Printed as PrintedValue};
ghost use Rattle.expr_types.specs.declared.fault.TypeError.TheVariants.{Broken};
ghost use Rattle.bt_types.specs.Bodies.{IsBodyOf, nothing, script_told, told_at, type_fault};
ghost use Rattle.expr_types.specs.Judge.{SaysFault, judged};
ghost use Rattle.bt_types.specs.Open.{BodiesDone, OneDone};
ghost use Rattle.bt_types.specs.Script.{IsTypedScript, maps_of};

use crate::body::{OpenBody, check_body};
use crate::close::{close_bodies, formats_of, maps_of};
use crate::exits::script_exits;
use bt_ast::attached::{Attached, BodyId};
use bt_ast::probe::Script;
use bt_core::beside::beside;
use bt_core::items::Items;
use bt_core::map::MapDecl;
use bt_core::memory::Memory;
use event_layout::format::Format;
use expr_types::fault::TypeError;
use expr_types::known::Known;
use expr_types::printed::Calls;
use expr_types::variables::Variables;
use fmt_text::piece::Piece;
use std::alloc::Global;
use typed_tree::script::Typed;

/// What is known before a script.
fn nothing(alloc: Global) -> Known
    ensures { result ≡ nothing }
{
    Known {
        event: None,
        vars: Variables::new(alloc),
        named: Items::new(alloc),
        calls: Items::new(alloc),
        names: Items::new(alloc),
        mentioned: Items::new(alloc),
        decided: Items::new(alloc),
        printed: Calls::new(alloc),
    }
}

/// A body of a script.
fn check_one(
    alloc: Global,
    known: &mut Known,
    script: &Script,
    formats: &[Format],
    id: &BodyId,
) -> Result<OpenBody, TypeError>
    requires { IsBodyOf script.now formats.now id.now }
    ensures { MatchResult result (λ body. OneDone script.now formats.now id.now known.old known.new body)
        (λ e. SaysFault (judged (told_at script.now formats.now id.now).points known.old) e) }
{
    let probe = &script.probes.as_slice()[id.probe as usize];
    check_body(alloc, known, formats, id.point, probe)
}

/// All bodies in their order.
fn check_bodies(
    alloc: Global,
    known: &mut Known,
    script: &Script,
    formats: &[Format],
    bodies: &[BodyId],
) -> Result<Items<OpenBody>, TypeError>
    requires { All (IsBodyOf script.now formats.now) bodies.now }
    ensures { MatchResult result (λ all. BodiesDone script.now formats.now bodies.now known.old known.new all)
        (λ e. SaysFault (judged (script_told script.now formats.now bodies.now).points known.old) e) }
{
    let mut all = Items::new(alloc);
    for id in bodies {
        let body = check_one(alloc, known, script, formats, id)?;
        all.push(body)?;
    }
    Ok(all)
}

/// All bodies in their order from their script's beginning, behind what is known at its end.
fn check_all(
    alloc: Global,
    script: &Script,
    formats: &[Format],
    bodies: &[BodyId],
) -> Result<(Known, Items<OpenBody>), TypeError>
    requires { All (IsBodyOf script.now formats.now) bodies.now }
    ensures { MatchResult result (λ all. BodiesDone script.now formats.now bodies.now nothing all.0 all.1)
        (λ e. SaysFault (judged (script_told script.now formats.now bodies.now).points nothing) e) }
{
    let mut known = nothing(alloc);
    let all = check_bodies(alloc, &mut known, script, formats, bodies);
    beside(known, all)
}

/// The maps and the formats of a script.
fn shared_of(alloc: Global, known: Known) -> Result<(Items<MapDecl>, Items<Items<Piece>>), Memory>
    ensures { IfOk result (λ shared. (shared.0 ≡ maps_of known) × (shared.1 ≡ map (λ (p : PrintedValue). p.pieces) known.printed)) }
{
    let maps = maps_of(alloc, &known);
    let (known, maps) = beside(known, maps)?;
    beside(maps, formats_of(alloc, known))
}

/// The types of a script over a recording's formats, by the sections on types, variables and maps of the bpftrace language
/// reference. The bodies are walked in their order, each from its beginning: its predicate, and its statements in turn. A map
/// has the kind and the key of its first mention, and a variable the type of its first assignment in its body.
///
/// # Errors
///
/// [`TypeError::Broken`] with the first rule that is broken in the order of the walk, and its place.
/// [`TypeError::Memory`] may come at any script.
pub fn check(
    alloc: Global,
    script: &Script,
    attached: &Attached,
    formats: &[Format],
) -> Result<Typed, TypeError>
    requires { All (IsBodyOf script.now formats.now) attached.now.bodies }
    // What is made is the script with its types.
    ensures typed { IfOk result (λ typed. IsTypedScript script.now formats.now attached.now.bodies typed) }
    // Then no rule is broken.
    ensures allowed { IfOk result (λ _. type_fault script.now formats.now attached.now.bodies ≡ None) }
    // Any error but want of memory is the first fault of the walk.
    ensures fault { (f : FaultValue) → IfErr result (λ e. e ≡ Broken f → type_fault script.now formats.now attached.now.bodies ≡ Some f) }
{
    let (known, bodies) = check_all(alloc, script, formats, attached.bodies.as_slice())?;
    let shared = shared_of(alloc, known);
    let (bodies, (maps, formats)) = beside(bodies, shared)?;
    let closed = close_bodies(alloc, bodies, &maps, &formats);
    let ((maps, formats), bodies) = beside((maps, formats), closed)?;
    Ok(Typed {
        maps,
        formats,
        bodies,
        uses_exit: script_exits(script),
    })
}
