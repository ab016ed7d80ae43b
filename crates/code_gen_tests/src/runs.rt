// Runs of bodies by their programs.
use body_fixtures::moments::{Moment, context_of};
use body_fixtures::port::port_of;
use body_fixtures::scripts::typed_of;
use bpf_codegen::generate::generate_program;
use bpf_encode::decode::decode;
use bpf_interp::code::Code;
use bt_core::items::Items;
use bt_core::step::{Reply, Step};
use bt_lower::lower::lower;
use event_record::contexts::{ContextBytes, ContextParts};
use helper_abi::running::run_code;
use ir_code::probe::IrProbe;
use std::alloc::Global;
use std::test::Fail;
use typed_tree::script::Typed;

/// The context of a moment, whose payload has so many bytes.
fn bytes_of(moment: Moment, payload_len: u32) -> ContextBytes {
    let seen = context_of(moment, payload_len);
    ContextBytes::of(&ContextParts {
        time: seen.time,
        start: seen.start,
        pid: seen.pid,
        tid: seen.tid,
        uid: seen.uid,
        gid: seen.gid,
        cpu: seen.cpu,
        comm: seen.comm.bytes(),
        payload_len: seen.payload_len,
    })
}

fn run_code_of(
    alloc: Global,
    typed: &Typed,
    probe: &IrProbe,
    moment: Moment,
    replies: Items<Reply>,
) -> Result<(Items<Step>, u64), Fail> {
    let payload = moment.payload;
    let program = generate_program(alloc, probe)?;
    let bytes = program.bytes.as_slice();
    let code = decode(alloc, &bytes[..bytes.len().min(32_768)])?;
    let (actor, actors) = (moment.actor, moment.actors);
    if payload.len() > 4096 || actor >= actors || code.is_empty() || code.len() > 4096 {
        return Err(Fail::from("no moment of this program"));
    }
    let context = bytes_of(moment, payload.len() as u32);
    let mut port = port_of(alloc, &typed.maps, moment, replies)?;
    let code = Code::of(alloc, Items::of(code))?;
    let fuel = program.fuel;
    let ended = run_code(
        alloc,
        &code,
        context.bytes(),
        payload,
        typed,
        actor,
        actors,
        &mut port,
        fuel,
    )?;
    Ok((port.steps, ended.instructions))
}

/// The steps of a body of a script's text, by its number, as its program makes them, and how many instructions it takes.
pub(crate) fn run_program(
    alloc: Global,
    text: &[u8],
    number: usize,
    moment: Moment,
    replies: Items<Reply>,
) -> Result<(Items<Step>, u64), Fail> {
    let typed = typed_of(alloc, text)?;
    let probes = lower(alloc, &typed)?;
    match probes.get(number) {
        Some(probe) => run_code_of(alloc, &typed, probe, moment, replies),
        None => Err(Fail::from("no such body")),
    }
}
