// The limits of the profile, each one the greatest that is accepted or kept, and the number of parts of a
// shared map.
ghost use Rattle.std.specs.Prelude.{◌≡◌};
ghost use Rattle.bt_core.specs.declared.limits.TheConstants.{BODIES, CODE_SLOTS, CPUS, EVENTS, FORMATS, FRAME_BYTES, FUEL_OF_A_SLOT, KEYS, KEY_PARTS, LAYOUT_END, LHIST_BUCKETS, LOOP_TURNS, MAPS, NESTING, PARTS, PROBES, RECORDING_BYTES, SCRIPT_BYTES, STRING_BYTES, STRING_TOKEN_BYTES, TICKS};

/// Bytes of a script.
pub const SCRIPT_BYTES: u64 = 65_536;

/// Bytes of a recording.
pub const RECORDING_BYTES: u64 = 268_435_456;

/// CPUs of a recording, of which there is at least one.
pub const CPUS: u32 = 64;

/// Event formats of a recording.
pub const FORMATS: u32 = 4_096;

/// Entries, which are events and marks of lost ones, of a recording over all its CPUs.
pub const EVENTS: u32 = 1_048_576;

/// The end, offset plus size, of a field in an event's layout.
pub const LAYOUT_END: u32 = 4_096;

/// Probes of a script.
pub const PROBES: u32 = 64;

/// Brackets and operators that are open at one token of a script.
pub const NESTING: u32 = 64;

/// Bodies of a script: pairs of a probe and what it is attached to.
pub const BODIES: u32 = 4_096;

/// Ticks of all interval probes over a recording.
pub const TICKS: u32 = 100_000;

/// Maps of a script.
pub const MAPS: u32 = 32;

/// Parts of a key.
pub const KEY_PARTS: usize = 4;

/// Bytes of a string value.
pub const STRING_BYTES: usize = 63;

/// Bytes of a string token, after its escapes.
pub const STRING_TOKEN_BYTES: usize = 1_024;

/// Keys of one map that live at one time in one object.
pub const KEYS: usize = 4_096;

/// Loop turns in one run of a body.
pub const LOOP_TURNS: u32 = 4_096;

/// Buckets of a linear histogram between its least and its greatest number.
pub const LHIST_BUCKETS: u32 = 1_000;

/// Bytes of a body's frame.
pub const FRAME_BYTES: u64 = 512;

/// Slots of a body's code.
pub const CODE_SLOTS: u64 = 4_096;

/// Instructions that a run of a body's code may take for each slot of the code.
pub const FUEL_OF_A_SLOT: u64 = 4_098;

/// Parts of each shared map, numbered from 0.
pub const PARTS: u32 = 8;

/// Each limit is the number that a reader of the language's limits knows. Nothing runs.
pub fn limits_are()
    ensures script_bytes { SCRIPT_BYTES ≡ 65536 }
    ensures recording_bytes { RECORDING_BYTES ≡ 268435456 }
    ensures cpus { CPUS ≡ 64 }
    ensures formats { FORMATS ≡ 4096 }
    ensures events { EVENTS ≡ 1048576 }
    ensures layout_end { LAYOUT_END ≡ 4096 }
    ensures probes { PROBES ≡ 64 }
    ensures nesting { NESTING ≡ 64 }
    ensures bodies { BODIES ≡ 4096 }
    ensures ticks { TICKS ≡ 100000 }
    ensures maps { MAPS ≡ 32 }
    ensures key_parts { KEY_PARTS ≡ 4 }
    ensures string_bytes { STRING_BYTES ≡ 63 }
    ensures string_token_bytes { STRING_TOKEN_BYTES ≡ 1024 }
    ensures keys { KEYS ≡ 4096 }
    ensures loop_turns { LOOP_TURNS ≡ 4096 }
    ensures lhist_buckets { LHIST_BUCKETS ≡ 1000 }
    ensures frame_bytes { FRAME_BYTES ≡ 512 }
    ensures code_slots { CODE_SLOTS ≡ 4096 }
    ensures fuel_of_a_slot { FUEL_OF_A_SLOT ≡ 4098 }
    ensures parts { PARTS ≡ 8 }
{}
