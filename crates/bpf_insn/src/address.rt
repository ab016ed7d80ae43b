// Where the three regions lie that code may reach.
ghost use Rattle.std.specs.Prelude.{◌≡◌};
ghost use Rattle.bpf_insn.specs.declared.address.TheConstants.{CONTEXT, PAYLOAD, FRAME, CONTEXT_BYTES};

/// The address of the first byte of the context.
pub const CONTEXT: u64 = 0x1_0000_0000;

/// The address of the first byte of the payload.
pub const PAYLOAD: u64 = 0x2_0000_0000;

/// The address of the first byte of the frame.
pub const FRAME: u64 = 0x3_0000_0000;

/// Bytes of the context.
pub const CONTEXT_BYTES: usize = 128;

/// The regions lie at 2^32, twice and three times that, and the context has 128 bytes. Nothing runs.
pub fn regions_are()
    ensures context { CONTEXT ≡ 4294967296 }
    ensures payload { PAYLOAD ≡ 8589934592 }
    ensures frame { FRAME ≡ 12884901888 }
    ensures context_bytes { CONTEXT_BYTES ≡ 128 }
{}
