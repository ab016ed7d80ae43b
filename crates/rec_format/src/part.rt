// The parts of a recording at the front of bytes.
ghost use Rattle.std.specs.Prelude.{◌≡◌};
ghost use Rattle.std.specs.Option.{option_map};
ghost use Rattle.recordings.specs.Fronts.{entry_part};
ghost use Rattle.rec_format.specs.Heads.{header_part, header_at, format_part, format_at, cpu_part, cpu_at, plain_at, tagged_at, entry_at};

use crate::number::sized16_at;
use recordings::number::{bytes_at, sized32_at, u32_at, u64_at};
use recordings::part::{EntryBytes, event_at, mark_at};

/// The header of a recording.
#[derive(Clone, Copy)]
pub(crate) struct Header<'b> {
    pub magic: &'b [u8],
    pub cpus: u32,
    pub formats: u32,
    pub start: u64,
    pub end: u64,
}

/// The system and the text of a format.
#[derive(Clone, Copy)]
pub(crate) struct FormatText<'b> {
    pub system: &'b [u8],
    pub text: &'b [u8],
}

/// The number of a CPU, and how many entries it has.
#[derive(Clone, Copy)]
pub(crate) struct CpuHead {
    pub number: u32,
    pub entries: u32,
}

/// A header, and what follows it.
#[tactic(auto, unfolding(crate::specs::Heads::header_at))]
pub(crate) fn header_at(bytes: &[u8]) -> Option<(Header<'_>, &[u8])>
    ensures { option_map (λ part. (header_part part.0, part.1.now)) result ≡ header_at bytes.now }
{
    let Some((magic, bytes)) = bytes_at(bytes, 8) else {
        return None;
    };
    let Some((cpus, bytes)) = u32_at(bytes) else {
        return None;
    };
    let Some((formats, bytes)) = u32_at(bytes) else {
        return None;
    };
    let Some((start, bytes)) = u64_at(bytes) else {
        return None;
    };
    let Some((end, rest)) = u64_at(bytes) else {
        return None;
    };
    let header = Header {
        magic,
        cpus,
        formats,
        start,
        end,
    };
    Some((header, rest))
}

/// A format, and what follows it.
#[tactic(auto, unfolding(crate::specs::Heads::format_at))]
pub(crate) fn format_at(bytes: &[u8]) -> Option<(FormatText<'_>, &[u8])>
    ensures { option_map (λ part. (format_part part.0, part.1.now)) result ≡ format_at bytes.now }
{
    let Some((system, bytes)) = sized16_at(bytes) else {
        return None;
    };
    let Some((text, rest)) = sized32_at(bytes) else {
        return None;
    };
    Some((FormatText { system, text }, rest))
}

/// The head of a CPU, and what follows it.
#[tactic(auto, unfolding(crate::specs::Heads::cpu_at))]
pub(crate) fn cpu_at(bytes: &[u8]) -> Option<(CpuHead, &[u8])>
    ensures { option_map (λ part. (cpu_part part.0, part.1.now)) result ≡ cpu_at bytes.now }
{
    let Some((number, bytes)) = u32_at(bytes) else {
        return None;
    };
    let Some((entries, rest)) = u32_at(bytes) else {
        return None;
    };
    Some((CpuHead { number, entries }, rest))
}

/// An event as an entry, and what follows it.
fn plain_at(bytes: &[u8]) -> Option<(EntryBytes<'_>, &[u8])>
    ensures { option_map (λ part. (entry_part part.0, part.1.now)) result ≡ plain_at bytes.now }
{
    let Some((event, rest)) = event_at(bytes) else {
        return None;
    };
    Some((EntryBytes::Event(event), rest))
}

/// The entry behind its first byte, and what follows it.
fn tagged_at(tag: u8, bytes: &[u8]) -> Option<(EntryBytes<'_>, &[u8])>
    ensures { option_map (λ part. (entry_part part.0, part.1.now)) result ≡ tagged_at tag bytes.now }
{
    match tag {
        0 => plain_at(bytes),
        1 => mark_at(bytes),
        _ => Some((EntryBytes::Unknown(tag), bytes)),
    }
}

/// An entry, where there may be marks of lost events or where there may not, and what follows it.
pub(crate) fn entry_at(marks: bool, bytes: &[u8]) -> Option<(EntryBytes<'_>, &[u8])>
    ensures { option_map (λ part. (entry_part part.0, part.1.now)) result ≡ entry_at marks bytes.now }
{
    if !marks {
        return plain_at(bytes);
    }
    if bytes.is_empty() {
        return None;
    }
    tagged_at(bytes[0], &bytes[1..])
}
