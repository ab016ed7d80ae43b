// Listings of a script's programs.
ghost use Rattle.std.specs.Prelude.{◌≡◌, ◌++◌, IfOk, OnOk, Some, codes, slice_get};
ghost use Rattle.std.specs.List.{AllByRecursion};
ghost use Rattle.top_jobs.specs.Doing.{CanBeListed};
ghost use Rattle.top_jobs.specs.Listings.{body_listing, body_name, event_name, head_line, point_name, script_listing};

use bpf_encode::listing::listing;
use bpf_encode::program::Program;
use bt_ast::attached::{BodyId, BodyPoint};
use bt_core::items::Items;
use bt_core::memory::Memory;
use event_layout::format::Format;
use itoa::Buffer;
use std::alloc::Global;

/// Adds the system and the name of an event.
fn push_event(text: &mut Vec<u8>, format: &Format) -> Result<(), Memory>
    ensures { OnOk result (text.new.items ≡ text.old.items ++ event_name (Some format.now)) }
{
    text.extend_from_slice(format.system.as_slice())?;
    text.extend_from_slice(b":")?;
    text.extend_from_slice(format.layout.name.as_slice())?;
    Ok(())
}

/// Adds what an event is run at, by the place of its format.
fn push_tracepoint(text: &mut Vec<u8>, formats: &[Format], place: u32) -> Result<(), Memory>
    ensures { OnOk result (text.new.items ≡ text.old.items ++ (codes "tracepoint:" ++ event_name (slice_get formats.now place))) }
{
    text.extend_from_slice(b"tracepoint:")?;
    match formats.get(place as usize) {
        None => Ok(()),
        Some(format) => push_event(text, format),
    }
}

/// Adds what a body is run at.
fn push_point(text: &mut Vec<u8>, formats: &[Format], point: BodyPoint) -> Result<(), Memory>
    ensures { OnOk result (text.new.items ≡ text.old.items ++ point_name formats.now point) }
{
    match point {
        BodyPoint::Begin => text.extend_from_slice(b"BEGIN")?,
        BodyPoint::End => text.extend_from_slice(b"END")?,
        BodyPoint::Interval => text.extend_from_slice(b"interval")?,
        BodyPoint::Event(place) => return push_tracepoint(text, formats, place),
    }
    Ok(())
}

/// Adds which body it is: `probe P K`, with the number P of its probe, and K what it is run at.
pub(crate) fn push_name(text: &mut Vec<u8>, formats: &[Format], id: BodyId) -> Result<(), Memory>
    ensures { OnOk result (text.new.items ≡ text.old.items ++ body_name formats.now id) }
{
    let mut buffer = Buffer::new();
    text.extend_from_slice(b"probe ")?;
    text.extend_from_slice(buffer.format(id.probe).as_bytes())?;
    text.extend_from_slice(b" ")?;
    push_point(text, formats, id.point)?;
    Ok(())
}

/// Adds the line of a body.
fn push_head(text: &mut Vec<u8>, formats: &[Format], id: BodyId) -> Result<(), Memory>
    ensures { OnOk result (text.new.items ≡ text.old.items ++ head_line formats.now id) }
{
    push_name(text, formats, id)?;
    text.extend_from_slice(b"\n")?;
    Ok(())
}

/// Adds the line of a body and the lines of its program.
fn push_body(
    alloc: Global,
    text: &mut Vec<u8>,
    formats: &[Format],
    id: BodyId,
    program: &Program,
) -> Result<(), Memory>
    requires { CanBeListed program.now }
    ensures { OnOk result (text.new.items ≡ text.old.items ++ body_listing formats.now id program.now) }
{
    push_head(text, formats, id)?;
    let slots = listing(alloc, program.bytes.as_slice())?;
    text.extend_from_slice(slots.as_slice())?;
    Ok(())
}

/// The listing of the programs of bodies over these formats: for each body the line `probe P K`, with the number P of its probe, and
/// K what it is run at, and then a line for each slot of its program.
///
/// [`Memory`] where there is no room for it.
pub fn script_listing(
    alloc: Global,
    formats: &[Format],
    bodies: &[BodyId],
    programs: &[Program],
) -> Result<Items<u8>, Memory>
    requires { AllByRecursion CanBeListed programs.now }
    ensures { IfOk result (λ text. text ≡ script_listing formats.now bodies.now programs.now) }
{
    let mut text = Vec::new(alloc);
    let many = bodies.len().min(programs.len());
    for number in 0..many {
        push_body(alloc, &mut text, formats, bodies[number], &programs[number])?;
    }
    Ok(Items::of(text))
}
