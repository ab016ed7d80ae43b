// What instructions make of what is known, and what they want of it.
ghost use Rattle.std.specs.Prelude.{◌≡◌, ◌≤◌};
ghost use Rattle.std.specs.Int.{byte_len};
ghost use Rattle.bpf_insn.specs.Words.{size_width};
ghost use Rattle.bpf_insn.specs.Machine.{address_of};
ghost use Rattle.bpf_check.specs.Reading.{set_known, number_in, lies_in, may_load, may_store};
ghost use Rattle.bpf_check.specs.Effects.{source_known, first_known, sum_known, difference_known, alu_known, loaded, frame_stored};
ghost use Rattle.bpf_check.specs.Effects.{after_helper, called, calculated, changed, compared, stored_from, effect};
ghost use Rattle.bpf_check.specs.Calls.{call_fits};
ghost use Rattle.bpf_check.specs.Sheet.{sheet_of};

use crate::calls::call_fits;
use crate::known::{Known, Seen, known_of, register_written};
use bpf_insn::address::{CONTEXT, CONTEXT_BYTES, FRAME, PAYLOAD};
use bpf_insn::insn::{AluOp, Insn, Size, Source};
use bt_core::limits::FRAME_BYTES;
use typed_tree::script::Typed;

/// The bytes of the frame that stores may write: those before the count of turns.
const STORE_BYTES: u64 = FRAME_BYTES - 8;

// What is known of a register that is read, where it is set.
pub fn set_known(known: Known) -> Option<Known>
    ensures { result ≡ set_known known }
{
    match known {
        Known::Unset => None,
        _ => Some(known),
    }
}

// The number that a register holds, where it is known.
pub fn number_in(known: Known) -> Option<u64>
    ensures { result ≡ number_in known }
{
    match known {
        Known::Const(number) => Some(number),
        _ => None,
    }
}

fn source_known(seen: &Seen, src: Source) -> Option<Known>
    ensures { result ≡ source_known seen.now src }
{
    match src {
        Source::Imm(number) => Some(Known::Const(i64::from(number).cast_unsigned())),
        Source::Reg(register) => set_known(known_of(seen, register)),
    }
}

// A move reads its source alone.
fn first_known(op: AluOp, seen: &Seen, dst: u8) -> Option<Known>
    ensures { result ≡ first_known op seen.now dst }
{
    match op {
        AluOp::Mov => Some(Known::Num),
        _ => set_known(known_of(seen, dst)),
    }
}

fn sum_known(x: Known, y: Known) -> Known
    ensures { result ≡ sum_known x y }
{
    match (x, y) {
        (Known::Const(a), Known::Const(b)) => Known::Const(a.wrapping_add(b)),
        _ => Known::Num,
    }
}

fn difference_known(x: Known, y: Known) -> Known
    ensures { result ≡ difference_known x y }
{
    match (x, y) {
        (Known::Const(a), Known::Const(b)) => Known::Const(a.wrapping_sub(b)),
        _ => Known::Num,
    }
}

// What is known of the result of arithmetic.
fn alu_known(wide: bool, op: AluOp, offset: i16, x: Known, y: Known) -> Known
    ensures { result ≡ alu_known wide op offset x y }
{
    if !wide {
        return Known::Num;
    }
    match op {
        AluOp::Mov => { if offset == 0 { y } else { Known::Num } }
        AluOp::Add => sum_known(x, y),
        AluOp::Sub => difference_known(x, y),
        _ => Known::Num,
    }
}

// Whether so many bytes at an address lie in a region.
pub fn lies_in(base: u64, size: u64, address: u64, count: u64) -> bool
    ensures { result ≡ lies_in base size address count }
{
    base <= address && count <= size && address - base <= size - count
}

fn may_load(payload: u32, address: u64, count: u64) -> bool
    ensures { result ≡ may_load payload address count }
{
    lies_in(CONTEXT, CONTEXT_BYTES as u64, address, count)
        || lies_in(PAYLOAD, u64::from(payload), address, count)
        || lies_in(FRAME, FRAME_BYTES, address, count)
}

pub fn may_store(address: u64, count: u64) -> bool
    ensures { result ≡ may_store address count }
{
    lies_in(FRAME, STORE_BYTES, address, count)
}

// The bytes of what is loaded or stored.
fn size_bytes(size: Size) -> u64
    ensures { result ≡ byte_len (size_width size) }
{
    match size {
        Size::W => 4,
        Size::H => 2,
        Size::B => 1,
        Size::Dw => 8,
    }
}

fn address_of(base: u64, offset: i16) -> u64
    ensures { result ≡ address_of base offset }
{
    base.wrapping_add(i64::from(offset).cast_unsigned())
}

// A load is of bytes that lie in a region.
fn loaded(payload: u32, seen: Seen, size: Size, dst: u8, src: u8, offset: i16) -> Option<Seen>
    ensures { result ≡ loaded payload seen size dst src offset }
{
    let base = number_in(known_of(&seen, src))?;
    if may_load(payload, address_of(base, offset), size_bytes(size)) {
        register_written(seen, dst, Known::Num)
    } else {
        None
    }
}

// A store is of bytes of the frame before the count of turns.
fn frame_stored(seen: Seen, size: Size, dst: u8, offset: i16) -> Option<Seen>
    ensures { result ≡ frame_stored seen size dst offset }
{
    let base = number_in(known_of(&seen, dst))?;
    if may_store(address_of(base, offset), size_bytes(size)) {
        Some(seen)
    } else {
        None
    }
}

// A call sets R0 to 0, and unsets R1 to R5.
fn after_helper(seen: Seen) -> Seen
    ensures { result ≡ after_helper seen }
{
    let mut after = seen;
    after.regs[0] = Known::Const(0);
    after.regs[1] = Known::Unset;
    after.regs[2] = Known::Unset;
    after.regs[3] = Known::Unset;
    after.regs[4] = Known::Unset;
    after.regs[5] = Known::Unset;
    after
}

fn called(typed: &Typed, seen: Seen, number: u32) -> Option<Seen>
    ensures { result ≡ called typed.now.maps typed.now.formats seen number }
{
    if call_fits(typed, number, &seen) {
        Some(after_helper(seen))
    } else {
        None
    }
}

// What is known after arithmetic on a register and a second operand.
fn calculated(seen: Seen, wide: bool, op: AluOp, dst: u8, src: Source, offset: i16) -> Option<Seen>
    ensures { result ≡ calculated seen wide op dst src offset }
{
    let x = first_known(op, &seen, dst)?;
    let y = source_known(&seen, src)?;
    register_written(seen, dst, alu_known(wide, op, offset, x, y))
}

// A register changes by itself alone.
fn changed(seen: Seen, dst: u8) -> Option<Seen>
    ensures { result ≡ changed seen dst }
{
    set_known(known_of(&seen, dst))?;
    register_written(seen, dst, Known::Num)
}

fn compared(seen: Seen, dst: u8, src: Source) -> Option<Seen>
    ensures { result ≡ compared seen dst src }
{
    set_known(known_of(&seen, dst))?;
    source_known(&seen, src)?;
    Some(seen)
}

fn stored_from(seen: Seen, size: Size, dst: u8, src: u8, offset: i16) -> Option<Seen>
    ensures { result ≡ stored_from seen size dst src offset }
{
    set_known(known_of(&seen, src))?;
    frame_stored(seen, size, dst, offset)
}

/// What is known after an instruction, where it finds what it wants: what it reads is set, what it loads
/// lies in a region, what it stores lies in the frame before the count of turns, and a call has its
/// arguments.
pub fn effect(typed: &Typed, payload: u32, insn: Insn, seen: Seen) -> Option<Seen>
    ensures { result ≡ effect (sheet_of typed.now payload) insn seen }
{
    match insn {
        Insn::Alu {
            wide,
            op,
            dst,
            src,
            offset,
        } => calculated(seen, wide, op, dst, src, offset),
        Insn::Neg { dst, .. } => changed(seen, dst),
        Insn::End { dst, .. } => changed(seen, dst),
        Insn::Jump { dst, src, .. } => compared(seen, dst, src),
        Insn::Load {
            size,
            dst,
            src,
            offset,
            ..
        } => loaded(payload, seen, size, dst, src, offset),
        Insn::StoreImm {
            size,
            dst,
            offset,
            ..
        } => frame_stored(seen, size, dst, offset),
        Insn::Store {
            size,
            dst,
            src,
            offset,
        } => stored_from(seen, size, dst, src, offset),
        Insn::Wide { dst, number } => register_written(seen, dst, Known::Const(number)),
        Insn::Call { number } => called(typed, seen, number),
        Insn::Half => None,
        _ => Some(seen),
    }
}
