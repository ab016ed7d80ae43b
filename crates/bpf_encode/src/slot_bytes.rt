// The eight bytes of a slot.
ghost use Rattle.std.specs.Prelude.{◌≡◌, ◌≤◌, length};
ghost use Rattle.bpf_insn.specs.Encoding.{slot_bytes as bytes_of_slot};
ghost use Rattle.bpf_encode.specs.Decoding.{slot_in};

use bpf_insn::slot::Slot;
use byteorder::{ByteOrder, LittleEndian};

/// The slot that the first eight bytes spell.
pub fn slot_at(bytes: &[u8]) -> Slot
    requires { 8 ≤ length bytes.now }
    ensures { result ≡ slot_in bytes.now }
{
    Slot {
        opcode: bytes[0],
        dst: bytes[1] % 16,
        src: bytes[1] / 16,
        offset: LittleEndian::read_i16(&bytes[2..]),
        imm: LittleEndian::read_i32(&bytes[4..]),
    }
}

/// The bytes of a slot.
pub fn bytes_of(slot: Slot) -> [u8; 8]
    requires dst { slot.dst ≤ 10 }
    requires src { slot.src ≤ 10 }
    ensures { result ≡ bytes_of_slot slot }
{
    let mut bytes = [0; 8];
    bytes[0] = slot.opcode;
    bytes[1] = slot.dst + 16 * slot.src;
    LittleEndian::write_i16(&mut bytes[2..4], slot.offset);
    LittleEndian::write_i32(&mut bytes[4..], slot.imm);
    bytes
}
