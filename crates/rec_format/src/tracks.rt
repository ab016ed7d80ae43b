// The CPUs of a recording.
ghost use Rattle.std.specs.Prelude.{◌≡◌, ◌-◌, drop, length};
ghost use Rattle.std.specs.Arc.{arc_value};
ghost use Rattle.rec_format.specs.Faults.{CpuFails, HasTracks};
ghost use Rattle.rec_format.specs.Answers.{Answers};

use crate::check::cpu_fault;
use crate::entries::{Setting, read_entries};
use crate::part::cpu_at;
use bt_core::items::Items;
use recordings::entries::Entries;
use recordings::error::RecordingError;
use recordings::recording::CpuTrack;
use std::alloc::Global;
use std::sync::Arc;

/// So many CPUs with their entries, and what follows them. The file has all bytes.
pub(crate) fn read_tracks<'b>(
    alloc: Global,
    file: &Arc<Vec<u8>, Global>,
    setting: &Setting<'_>,
    count: u32,
    bytes: &'b [u8],
) -> Result<(Items<CpuTrack>, &'b [u8]), RecordingError>
    requires whole { setting.now.file.now ≡ (arc_value file.now).items }
    requires suffix { bytes.now ≡ drop (length setting.now.file.now - length bytes.now) setting.now.file.now }
    ensures { Answers result
        (λ read. HasTracks setting.now.marks setting.now.formats.now setting.now.start setting.now.end count bytes.now read.0 read.1.now)
        (CpuFails setting.now.marks (length setting.now.file.now) setting.now.formats.now setting.now.start setting.now.end count bytes.now) }
{
    let mut cpus = Items::new(alloc);
    let mut rest = bytes;
    let mut least = 0u64;
    let mut announced = 0u32;
    for place in 0..count {
        let Some((head, after)) = cpu_at(rest) else {
            return Err(RecordingError::Truncated(setting.file.len() as u64));
        };
        if let Some(fault) = cpu_fault(place, least, announced, head) {
            return Err(fault);
        }
        let (places, after) = read_entries(alloc, setting, place, head.entries, after)?;
        let entries = Entries::of(file, places)?;
        cpus.push(CpuTrack {
            number: head.number,
            entries,
        })?;
        least = u64::from(head.number) + 1;
        announced += head.entries;
        rest = after;
    }
    Ok((cpus, rest))
}
