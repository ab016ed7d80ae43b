// From the fields of a slot to an instruction.
ghost use Rattle.std.specs.Prelude.{◌≡◌};
ghost use Rattle.bpf_insn.specs.declared.insn.Insn.TheVariants.{Alu, Jump, Load, StoreImm, Store};
ghost use Rattle.bpf_encode.specs.Slots.{source_in, wide_number, insn_with};

use bpf_insn::form::Form;
use bpf_insn::insn::{AluOp, Insn, JumpOp, Size, Source};
use bpf_insn::slot::Slot;

/// The instruction of a form with the fields of a slot, as they are. `upper` is the upper half of a
/// wide load's number.
pub fn insn_with(slot: Slot, upper: u32, form: Form) -> Insn
    ensures { result ≡ insn_with slot upper form }
{
    let dst = slot.dst;
    match form {
        Form::Alu { wide, op, register } => arithmetic(slot, wide, op, register),
        Form::Neg { wide } => Insn::Neg { wide, dst },
        Form::End { wide, big } => Insn::End {
            wide,
            big,
            dst,
            bits: slot.imm,
        },
        Form::Jump { wide, op, register } => jump(slot, wide, op, register),
        Form::Ja => Insn::Ja {
            offset: slot.offset,
        },
        Form::JaLong => Insn::JaLong { imm: slot.imm },
        Form::Call => Insn::Call {
            number: slot.imm.cast_unsigned(),
        },
        Form::Exit => Insn::Exit,
        Form::Load { size, sign } => load(slot, size, sign),
        Form::StoreImm { size } => store_imm(slot, size),
        Form::Store { size } => store(slot, size),
        Form::Wide => Insn::Wide {
            dst,
            number: wide_number(slot.imm.cast_unsigned(), upper),
        },
        Form::Half => Insn::Half,
    }
}

fn source_in(slot: Slot, register: bool) -> Source
    ensures { result ≡ source_in slot register }
{
    if register {
        Source::Reg(slot.src)
    } else {
        Source::Imm(slot.imm)
    }
}

fn arithmetic(slot: Slot, wide: bool, op: AluOp, register: bool) -> Insn
    ensures { result ≡ Alu wide op slot.dst (source_in slot register) slot.offset }
{
    Insn::Alu {
        wide,
        op,
        dst: slot.dst,
        src: source_in(slot, register),
        offset: slot.offset,
    }
}

fn jump(slot: Slot, wide: bool, op: JumpOp, register: bool) -> Insn
    ensures { result ≡ Jump wide op slot.dst (source_in slot register) slot.offset }
{
    Insn::Jump {
        wide,
        op,
        dst: slot.dst,
        src: source_in(slot, register),
        offset: slot.offset,
    }
}

fn load(slot: Slot, size: Size, sign: bool) -> Insn
    ensures { result ≡ Load size sign slot.dst slot.src slot.offset }
{
    Insn::Load {
        size,
        sign,
        dst: slot.dst,
        src: slot.src,
        offset: slot.offset,
    }
}

fn store_imm(slot: Slot, size: Size) -> Insn
    ensures { result ≡ StoreImm size slot.dst slot.offset slot.imm }
{
    Insn::StoreImm {
        size,
        dst: slot.dst,
        offset: slot.offset,
        imm: slot.imm,
    }
}

fn store(slot: Slot, size: Size) -> Insn
    ensures { result ≡ Store size slot.dst slot.src slot.offset }
{
    Insn::Store {
        size,
        dst: slot.dst,
        src: slot.src,
        offset: slot.offset,
    }
}

// The number of two halves.
fn wide_number(low: u32, upper: u32) -> u64
    ensures { result ≡ wide_number low upper }
{
    u64::from(low) + 0x1_0000_0000 * u64::from(upper)
}
