// The checks of the parts of a recording.
ghost use Rattle.std.specs.Prelude.{◌≡◌};
ghost use Rattle.std.specs.List.{list_all};
ghost use Rattle.rec_format.specs.Heads.{header_part, cpu_part};
ghost use Rattle.recordings.specs.Checks.{version_of, has_marks, header_fault, is_system_byte, is_system, cpu_fault};

use crate::part::{CpuHead, Header};
use bt_core::bytes::is_word_byte;
use bt_core::limits::{CPUS, EVENTS, FORMATS};
use recordings::error::{CountOf, RecordingError};
use recordings::limits::SYSTEM_BYTES;

/// What a recording of version 1 begins with.
pub(crate) const MAGIC: &[u8; 8] = b"BTRACE01";

/// What a recording of version 2 begins with.
pub(crate) const MAGIC_OF_MARKED: &[u8; 8] = b"BTRACE02";

/// The first check that a header fails.
pub(crate) fn header_fault(header: &Header<'_>) -> Option<RecordingError>
    ensures { result ≡ header_fault (header_part header.now) }
{
    if header.magic != MAGIC.as_slice() && header.magic != MAGIC_OF_MARKED.as_slice() {
        return Some(RecordingError::BadMagic);
    }
    if header.cpus == 0 || header.cpus > CPUS {
        return Some(RecordingError::Count(CountOf::Cpus));
    }
    if header.formats > FORMATS {
        return Some(RecordingError::Count(CountOf::Formats));
    }
    if header.start > header.end {
        return Some(RecordingError::Count(CountOf::Span));
    }
    None
}

/// The version that a magic tells.
pub(crate) fn version_of(magic: &[u8]) -> u32
    ensures { result ≡ version_of magic.now }
{
    if magic == MAGIC.as_slice() { 1 } else { 2 }
}

/// Whether CPUs of this version may have marks of lost events.
pub(crate) fn has_marks(version: u32) -> bool
    ensures { result ≡ has_marks version }
{
    version != 1
}

fn is_system_byte(byte: u8) -> bool
    ensures { result ≡ is_system_byte byte }
{
    is_word_byte(byte) || byte == b'-'
}

fn are_system_bytes(bytes: &[u8]) -> bool
    ensures { result ≡ list_all is_system_byte bytes.now }
{
    bytes.iter().all(|byte| is_system_byte(*byte))
}

/// Whether these are 1 to 64 letters, digits, `_` and `-`.
pub(crate) fn is_system(system: &[u8]) -> bool
    ensures { result ≡ is_system system.now }
{
    !system.is_empty() && system.len() <= SYSTEM_BYTES && are_system_bytes(system)
}

/// The first check that the head of a CPU fails, behind so many CPUs, where its number may be so small
/// and so many entries were announced.
pub(crate) fn cpu_fault(
    place: u32,
    least: u64,
    announced: u32,
    head: CpuHead,
) -> Option<RecordingError>
    ensures { result ≡ cpu_fault place least announced (cpu_part head) }
{
    if u64::from(head.number) < least {
        return Some(RecordingError::CpuNumber(place));
    }
    if u64::from(announced) + u64::from(head.entries) > u64::from(EVENTS) {
        return Some(RecordingError::Count(CountOf::Events));
    }
    None
}
