// From instructions to bytes.
ghost use Rattle.std.specs.Prelude.{◌≡◌, IfOk};
ghost use Rattle.std.specs.List.{AllByRecursion};
ghost use Rattle.bpf_insn.specs.Code.{IsWellFormed};
ghost use Rattle.bpf_insn.specs.Encoding.{code_bytes};
ghost use Rattle.bpf_encode.specs.Decoding.{Fits, FitsSource};

use crate::slot_bytes::bytes_of;
use bpf_insn::insn::{Insn, Source};
use bpf_insn::slot::Slot;
use bt_core::memory::Memory;
use std::alloc::Global;

// The numbers of an operand have the bits of their types.
fn source_fits(source: Source)
    ensures { FitsSource source }
{
    match source {
        Source::Imm(_) => {}
        Source::Reg(_) => {}
    }
}

// The numbers of an instruction have the bits of their types.
fn fits(insn: Insn)
    ensures { Fits insn }
{
    match insn {
        Insn::Alu { src, .. } | Insn::Jump { src, .. } => source_fits(src),
        _ => {}
    }
}

/// The bytes of well-formed code, eight for each instruction (RFC 9669, section 3). A half holds the
/// upper half of the number of the wide load before it.
///
/// [`Memory`] where there is no room for them.
pub fn encode(alloc: Global, code: &[Insn]) -> Result<Vec<u8>, Memory>
    requires well_formed { IsWellFormed code.now }
    ensures bytes { IfOk result (λ bytes. bytes.items ≡ code_bytes code.now) }
    // The numbers of the instructions have the bits of their types, so the code can be decoded.
    ensures fits { IfOk result (λ _. AllByRecursion Fits code.now) }
{
    let mut bytes = Vec::new(alloc);
    let mut upper = 0;
    for insn in code {
        fits(*insn);
        let slot = Slot::of(*insn, upper);
        bytes.extend_from_slice(&bytes_of(slot))?;
        upper = insn.upper_half();
    }
    Ok(bytes)
}
