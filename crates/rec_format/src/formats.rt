// The header and the formats of a recording.
ghost use Rattle.std.specs.Prelude.{◌≡◌};
ghost use Rattle.rec_format.specs.Heads.{header_part};
ghost use Rattle.rec_format.specs.Faults.{HeaderFails, HasHeader, FormatFails, HasFormats};
ghost use Rattle.rec_format.specs.Answers.{Answers};

use crate::check::header_fault;
use crate::part::{Header, format_at, header_at};
use crate::table::FormatTable;
use recordings::error::RecordingError;
use std::alloc::Global;

/// The header, and what follows it.
pub(crate) fn read_header(bytes: &[u8]) -> Result<(Header<'_>, &[u8]), RecordingError>
    ensures { Answers result (λ read. HasHeader bytes.now (header_part read.0) read.1.now) (HeaderFails bytes.now) }
{
    let Some((header, rest)) = header_at(bytes) else {
        return Err(RecordingError::Truncated(bytes.len() as u64));
    };
    match header_fault(&header) {
        Some(fault) => Err(fault),
        None => Ok((header, rest)),
    }
}

/// So many formats, and what follows them. The whole recording has the given number of bytes.
pub(crate) fn read_formats(
    alloc: Global,
    whole: u64,
    count: u32,
    bytes: &[u8],
) -> Result<(FormatTable, &[u8]), RecordingError>
    ensures { Answers result (λ read. HasFormats count bytes.now read.0 read.1.now) (FormatFails whole count bytes.now) }
{
    let mut table = FormatTable::new(alloc);
    let mut rest = bytes;
    for _ in 0..count {
        let Some((format, after)) = format_at(rest) else {
            return Err(RecordingError::Truncated(whole));
        };
        table = table.with(alloc, format)?;
        rest = after;
    }
    Ok((table, rest))
}
