// Files of the system that are read in parts, side by side.
ghost use Rattle.std.specs.Prelude.{◌≡◌, ◌≤◌, length, IfOk, IfSome};
ghost use Rattle.bt_io.specs.Parts.{joined};

use crate::parts::{Cutter, Peek};
use crate::window::FileWindow;
use bt_core::items::Items;
use bt_core::memory::Memory;
use std::alloc::{AllocError, Global};
use std::fs::{File, OpenFile};
use std::io::Read;
use std::os::unix::fs::FileExt;
use std::thread::Threads;
use std::{io, thread};

/// A file of fewer bytes is read in one part.
const PARTED_BYTES: u64 = 1_048_576;

/// Room behind the bytes that are awaited, so that the read that finds their end has some.
pub(crate) const SPARE_BYTES: u64 = 512;

/// So many bytes of a file, from a place on.
#[derive(Clone, Copy, Drop)]
struct Span {
    from: u64,
    bytes: u64,
}

/// A file that is read from a place on.
#[derive(Drop)]
struct FileFrom<'f> {
    file: &'f File,
    at: u64,
}

impl Read for FileFrom<'_> {
    fn read(&mut self, buf: &mut [u8]) -> io::Result<usize> {
        match self.file.read_at(buf, self.at) {
            Ok(count) => {
                self.at = self.at.saturating_add(count as u64);
                Ok(count)
            }
            Err(error) => Err(error),
        }
    }
}

/// The spans of a file of so many bytes that is cut at these places. A place that is not behind the one before it is passed over.
fn spans(alloc: Global, cuts: &[u64], bytes: u64) -> Result<Vec<Span>, Memory> {
    let mut spans = Vec::new(alloc);
    let mut from = 0u64;
    for cut in cuts {
        if *cut > from && *cut < bytes {
            spans.push(Span {
                from,
                bytes: *cut - from,
            })?;
            from = *cut;
        }
    }
    spans.push(Span {
        from,
        bytes: bytes.saturating_sub(from),
    })?;
    Ok(spans)
}

/// The bytes of a span, or `None` where they cannot be read whole.
fn read_span(alloc: Global, file: &File, span: Span) -> Option<Items<u8>> {
    let Ok(room) = usize::try_from(span.bytes.saturating_add(SPARE_BYTES)) else {
        return None;
    };
    let Ok(mut bytes) = Vec::with_capacity(alloc, room) else {
        return None;
    };
    let rest = FileFrom {
        file,
        at: span.from,
    };
    match rest.take(span.bytes).read_to_end(&mut bytes) {
        Ok(count) if count as u64 == span.bytes => Some(Items::of(bytes)),
        _ => None,
    }
}

/// All parts, where each was read and they have at most so many bytes.
fn whole_parts(
    alloc: Global,
    read: Vec<Option<Items<u8>>>,
    limit: u64,
) -> Result<Option<Vec<Items<u8>>>, Memory>
    ensures { IfOk result (λ all. IfSome all (λ parts. length (joined parts.items) ≤ limit)) }
{
    let mut parts = Vec::new(alloc);
    let mut left = limit;
    for part in read {
        let Some(part) = part else {
            return Ok(None);
        };
        let count = part.len() as u64;
        if count > left {
            return Ok(None);
        }
        left -= count;
        parts.push(part)?;
    }
    Ok(Some(parts))
}

/// The parts of a file of the system, read side by side where threads can be started; or `None` where it is short, or is not had whole in this way, as a
/// pipe or a file that changes.
pub(crate) fn read_spans<T: Threads + Sync, C: Cutter>(
    threads: &T,
    alloc: Global,
    file: &File,
    limit: u64,
    cutter: &C,
) -> Result<Option<Vec<Items<u8>>>, Memory>
    ensures { IfOk result (λ all. IfSome all (λ parts. length (joined parts.items) ≤ limit)) }
{
    let told = match file.metadata() {
        Ok(metadata) => metadata.len(),
        Err(_) => 0,
    };
    if told < PARTED_BYTES || told > limit {
        return Ok(None);
    }
    let mut window = FileWindow::on(alloc, file)?;
    let cuts = cutter.cuts(alloc, &mut window)?;
    if window.u8_at(told).is_some() {
        return Ok(None);
    }
    let spans = spans(alloc, cuts.as_slice(), told)?;
    let read = |span: Span| -> Option<Items<u8>> { read_span(alloc, file, span) };
    let read = thread::map_vec(threads, spans, &read)?;
    whole_parts(alloc, read, limit)
}
