// The check of a script's programs.
ghost use Rattle.std.specs.Prelude.{◌≡◌, ◌≢◌, ◌++◌, ◌≤◌, length, Err, IfOk, IfErr, OnOk};
ghost use Rattle.std.specs.List.{AllByRecursion};
ghost use Rattle.bt_core.specs.Want.{out_of_memory};
ghost use Rattle.walk_meaning.specs.Served.{least_length};
ghost use Rattle.top_jobs.specs.Doing.{CanBeListed};
ghost use Rattle.top_jobs.specs.Vetting.{IsAnswerOf, IsVerdict, Passes, line_of, most_of, refusal_of};

use crate::listing::push_name;
use bpf_check::check::{CodeFault, check_code};
use bpf_encode::program::Program;
use bt_ast::attached::BodyId;
use bt_core::items::Items;
use bt_core::memory::Memory;
use event_layout::format::Format;
use itoa::Buffer;
use std::alloc::Global;
use top_refusals::refusal::CodeRefusal;
use typed_tree::body::TypedBody;
use typed_tree::script::Typed;

/// What the check says of a script's programs.
#[derive(Drop)]
pub enum Verdict {
    /// It accepts all: the lines that tell so.
    Accepted(Items<u8>),
    /// It refuses one: the first such.
    Refused(CodeRefusal),
}

/// How long a payload is at least that a body is run over: the size of its event's layout, or 0 where it has no event.
fn least_length(body: &TypedBody) -> u32
    ensures { result ≡ least_length body.now.layout }
{
    match &body.layout {
        None => 0,
        Some(layout) => layout.size,
    }
}

/// Checks the program of a body, and answers how many instructions a run of it takes at most.
fn vet_program(
    alloc: Global,
    typed: &Typed,
    body: &TypedBody,
    program: &Program,
) -> Result<u64, CodeFault>
    requires { CanBeListed program.now }
    ensures most { IfOk result (λ most. most ≡ most_of program.now) }
    ensures passes { IfOk result (λ most. Passes typed.now body.now program.now) }
    ensures refused { IfErr result (λ fault. fault ≢ CodeFault.Memory out_of_memory → IsAnswerOf typed.now body.now program.now (Err fault)) }
{
    check_code(alloc, program.bytes.as_slice(), typed, least_length(body))
}

/// Why a program is refused, by the fault that the check tells of it; want of memory is no such fault.
fn refusal_of(id: BodyId, fault: CodeFault) -> Result<CodeRefusal, Memory>
    ensures { result ≡ refusal_of id fault }
{
    match fault {
        CodeFault::Memory(memory) => Err(memory),
        fault => Ok(CodeRefusal {
            probe: id.probe,
            fault,
        }),
    }
}

/// Adds the line of a body of whose program a run takes at most so many instructions.
fn push_line(text: &mut Vec<u8>, formats: &[Format], id: BodyId, most: u64) -> Result<(), Memory>
    ensures { OnOk result (text.new.items ≡ text.old.items ++ line_of formats.now id most) }
{
    let mut buffer = Buffer::new();
    push_name(text, formats, id)?;
    text.extend_from_slice(b": at most ")?;
    text.extend_from_slice(buffer.format(most).as_bytes())?;
    text.extend_from_slice(b" instructions\n")?;
    Ok(())
}

/// Checks the programs of a script's bodies, which are named by the ids of the same places, in their order up to the first that is refused.
///
/// [`Memory`] where there is no room for what the check keeps, or for the lines.
pub fn vet_programs(
    alloc: Global,
    formats: &[Format],
    ids: &[BodyId],
    typed: &Typed,
    programs: &[Program],
) -> Result<Verdict, Memory>
    requires can_be_listed { AllByRecursion CanBeListed programs.now }
    requires as_many { length programs.now ≡ length typed.now.bodies }
    requires named { length typed.now.bodies ≤ length ids.now }
    ensures { IfOk result (IsVerdict formats.now ids.now typed.now programs.now) }
{
    let mut text = Vec::new(alloc);
    for number in 0..programs.len() {
        let body = &typed.bodies.as_slice()[number];
        let id = ids[number];
        let most = match vet_program(alloc, typed, body, &programs[number]) {
            Ok(most) => most,
            Err(fault) => {
                let why = refusal_of(id, fault)?;
                return Ok(Verdict::Refused(why));
            }
        };
        push_line(&mut text, formats, id, most)?;
    }
    Ok(Verdict::Accepted(Items::of(text)))
}
