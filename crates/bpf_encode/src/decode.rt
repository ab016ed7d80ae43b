// From bytes to instructions.
ghost use Rattle.std.specs.Prelude.{◌≡◌, ◌<◌, ◌≤◌, ◌*◌, ◌/◌, ◌^◌, ◌%◌, ◌≢◌, ◌⊎◌, ℕ, List, false, length, Ok, Err, IfOk, IfErr, MatchResult};
ghost use Rattle.bt_core.specs.Want.{out_of_memory};
ghost use Rattle.bpf_insn.specs.declared.insn.Insn.{Insn as InsnValue};
ghost use Rattle.bpf_insn.specs.Code.{is_wide};
ghost use Rattle.bpf_insn.specs.Classes.{class_form};
ghost use Rattle.bpf_encode.specs.Decoding.{IsCodeOf};
ghost use Rattle.bpf_encode.specs.Faults.{IsFirstFault};
ghost use Rattle.bpf_encode.specs.Slots.{is_same_slot, next_upper, checked, first_decoded, half_decoded, slot_decoded, decoded, FaultIs};
ghost use Rattle.bpf_encode.specs.declared.decode.DecodeError.{DecodeError as ErrorValue};

use crate::fields::insn_with;
use crate::slot_bytes::slot_at;
use bpf_insn::form::Form;
use bpf_insn::insn::Insn;
use bpf_insn::slot::Slot;
use bt_core::memory::Memory as NoMemory;
use std::alloc::{AllocError, AllocFailed, Global};
use thiserror::Error;

/// Why bytes are no code. The number is that of the first slot that is at fault, counted from 0.
#[derive(Clone, Copy, PartialEq, Eq, Debug, Error)]
pub enum DecodeError {
    /// The number of bytes is no multiple of eight.
    #[error("B1: the length is no multiple of 8")]
    BadLength,
    /// The opcode is that of no instruction.
    #[error("B2: unknown opcode at slot {0}")]
    BadOpcode(u32),
    /// A register is above 10, a field that the instruction does not use is not 0, or one that it
    /// uses has a value without a meaning. So is the second slot of a wide load that has an opcode,
    /// a register or an offset.
    #[error("B3: bad field at slot {0}")]
    BadField(u32),
    /// A wide load has no second slot.
    #[error("B4: wide load without its second slot at slot {0}")]
    HalfWide(u32),
    /// Memory ran out.
    #[error("out of memory")]
    Memory(NoMemory),
}

impl<T: Drop> From<AllocFailed<T>> for DecodeError {
    ghost use Rattle.std.specs.Prelude.{◌≡◌};
    ghost use Rattle.bpf_encode.specs.declared.decode.DecodeError.TheVariants.{Memory};
    ghost use Rattle.bt_core.specs.Want.{out_of_memory};

    ghost from_gives = { λ _ e. e ≡ Memory out_of_memory };

    fn from(error: AllocFailed<T>) -> DecodeError {
        DecodeError::Memory(error.into())
    }
}

fn is_same_slot(a: Slot, b: Slot) -> bool
    ensures { result ≡ is_same_slot a b }
{
    a.opcode == b.opcode
        && a.dst == b.dst
        && a.src == b.src
        && a.offset == b.offset
        && a.imm == b.imm
}

// The upper half that a second slot holds, where there is one.
fn next_upper(bytes: &[u8]) -> Option<u32>
    ensures { result ≡ next_upper bytes.now }
{
    if bytes.len() >= 16 {
        Some(slot_at(&bytes[8..]).imm.cast_unsigned())
    } else {
        None
    }
}

fn is_wide(insn: Insn) -> bool
    ensures { result ≡ is_wide insn }
{
    match insn {
        Insn::Wide { .. } => true,
        _ => false,
    }
}

// An instruction is that of a slot where its own slot is the same. A wide load has a second slot.
fn checked(number: u32, slot: Slot, next: Option<u32>, insn: Insn) -> Result<Insn, DecodeError>
    ensures { result ≡ checked number slot next insn }
{
    if !insn.is_valid() || !is_same_slot(Slot::of(insn, 0), slot) {
        return Err(DecodeError::BadField(number));
    }
    if is_wide(insn) && next.is_none() {
        return Err(DecodeError::HalfWide(number));
    }
    Ok(insn)
}

// The slot of an instruction, of which a wide load takes the next one too.
fn first_decoded(number: u32, slot: Slot, next: Option<u32>) -> Result<Insn, DecodeError>
    ensures { result ≡ first_decoded number slot next (class_form slot.opcode) }
{
    match Form::at(slot.opcode) {
        None => Err(DecodeError::BadOpcode(number)),
        Some(form) => checked(number, slot, next, insn_with(slot, next.unwrap_or(0), form)),
    }
}

// The second slot of a wide load, which holds half of a number and nothing else.
fn half_decoded(number: u32, slot: Slot) -> Result<Insn, DecodeError>
    ensures { result ≡ half_decoded number slot }
{
    let half = Slot::of(Insn::Half, slot.imm.cast_unsigned());
    if is_same_slot(half, slot) {
        Ok(Insn::Half)
    } else {
        Err(DecodeError::BadField(number))
    }
}

// The slot at the front.
fn slot_decoded(number: u32, owed: bool, bytes: &[u8]) -> Result<Insn, DecodeError>
    requires { 8 ≤ length bytes.now }
    ensures { result ≡ slot_decoded number owed bytes.now }
{
    let slot = slot_at(bytes);
    if owed {
        half_decoded(number, slot)
    } else {
        first_decoded(number, slot, next_upper(bytes))
    }
}

// The instructions of whole slots.
fn decode_slots(alloc: Global, bytes: &[u8]) -> Result<Vec<Insn>, DecodeError>
    requires whole { length bytes.now % 8 ≡ 0 }
    requires short { length bytes.now < 2 ^ 35 }
    ensures { let answer = decoded 0 false (length bytes.now / 8) bytes.now in
        MatchResult result (λ code. answer ≡ Ok code.items) (λ e. FaultIs answer e) }
{
    let mut code = Vec::new(alloc);
    let mut owed = false;
    let slots = bytes.len() / 8;
    for place in 0..slots {
        let insn = slot_decoded(place as u32, owed, &bytes[8 * place..])?;
        owed = is_wide(insn);
        code.push(insn)?;
    }
    Ok(code)
}

/// The code that the bytes are, of fewer than 2^32 slots, or its first fault.
///
/// Faults are looked for slot by slot, once the length is a multiple of eight.
pub fn decode(alloc: Global, bytes: &[u8]) -> Result<Vec<Insn>, DecodeError>
    requires short { length bytes.now < 2 ^ 35 }
    // What is decoded is the code that the bytes are.
    ensures code { IfOk result (λ code. IsCodeOf code.items bytes.now) }
    // The code that the bytes are is decoded, unless memory runs out.
    ensures only { (code : List InsnValue) → IsCodeOf code bytes.now →
        MatchResult result (λ answer. answer.items ≡ code) (λ e. e ≡ DecodeError.Memory out_of_memory) }
    // Any other error is the first fault of the bytes.
    ensures fault { IfErr result (λ e. e ≢ DecodeError.Memory out_of_memory → IsFirstFault bytes.now e) }
    // The first fault of the bytes is answered, unless memory runs out.
    ensures refused { (e : ErrorValue) → IsFirstFault bytes.now e → (result ≡ Err e) ⊎ (result ≡ Err (DecodeError.Memory out_of_memory)) }
{
    if bytes.len() % 8 != 0 {
        return Err(DecodeError::BadLength);
    }
    decode_slots(alloc, bytes)
}
