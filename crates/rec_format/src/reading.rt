// Reading a recording.
ghost use Rattle.std.specs.Prelude.{◌≡◌, ◌≢◌, ◌⊎◌, IfOk, IfErr, Ok, Err};
ghost use Rattle.std.specs.Arc.{arc_value};
ghost use Rattle.bt_io.specs.Parts.{joined};
ghost use Rattle.recordings.specs.declared.recording.Recording.{Recording};
ghost use Rattle.recordings.specs.declared.error.RecordingError.{RecordingError};
ghost use Rattle.recordings.specs.Recordings.{recording_bytes, IsValidRecording};
ghost use Rattle.rec_format.specs.Faults.{IsRecordingFault};
ghost use Rattle.rec_format.specs.Answers.{Answers, IsSpelled};
ghost use Rattle.recordings.specs.Places.{AreBytes};

use crate::check::{has_marks, version_of};
use crate::entries::Setting;
use crate::formats::{read_formats, read_header};
use crate::parted::{read_parted, shared, whole};
use crate::tracks::read_tracks;
use bt_core::items::Items;
use bt_io::parts::into_one;
use recordings::error::RecordingError;
use recordings::recording::Recording;
use std::alloc::Global;
use std::sync::Arc;
use std::thread::Threads;

/// The recording that the bytes spell.
///
/// The bytes are read once from the front, apart from looking up names and IDs in ordered tables. The recording keeps them: its
/// entries are read where they lie. Memory is taken for what the bytes hold, never for what they announce.
///
/// # Errors
///
/// The first check that fails, in the order of the bytes, with its offset or places
/// ([`RecordingError`]). [`RecordingError::Memory`] may come at any bytes.
pub fn read_recording(alloc: Global, bytes: Vec<u8>) -> Result<Recording, RecordingError>
    // What is read is valid, and the bytes are its spelling.
    ensures valid { IfOk result IsValidRecording }
    ensures spelled { IfOk result (λ recording. bytes.items ≡ recording_bytes recording) }
    // A valid recording that the bytes spell is read, unless memory runs out.
    ensures only { (recording : Recording) → IsValidRecording recording → bytes.items ≡ recording_bytes recording
        → (result ≡ Ok recording) ⊎ (result ≡ Err RecordingError.Memory) }
    // Any other error is the first fault of the bytes.
    ensures fault { IfErr result (λ e. e ≢ RecordingError.Memory → IsRecordingFault bytes.items e) }
    // The first fault of the bytes is answered, unless memory runs out.
    ensures refused { (e : RecordingError) → IsRecordingFault bytes.items e → (result ≡ Err e) ⊎ (result ≡ Err RecordingError.Memory) }
{
    let file = Arc::new(alloc, bytes)?;
    read(alloc, &file, (*file).as_slice())
}

/// The same of bytes in parts. Where the first part has the header and the formats and each other one a CPU, the CPUs are read side by
/// side, if threads can be started. Other parts, and parts in which there is a fault, are put together first.
///
/// # Errors
///
/// As of [`read_recording`].
pub fn read_recording_on_threads<R: Threads + Sync>(
    rt: &R,
    alloc: Global,
    parts: Vec<Items<u8>>,
) -> Result<Recording, RecordingError>
    // What is read is valid, and the bytes are its spelling.
    ensures valid { IfOk result IsValidRecording }
    ensures spelled { IfOk result (λ recording. joined parts.items ≡ recording_bytes recording) }
    // A valid recording that the bytes spell is read, unless memory runs out.
    ensures only { (recording : Recording) → IsValidRecording recording → joined parts.items ≡ recording_bytes recording
        → (result ≡ Ok recording) ⊎ (result ≡ Err RecordingError.Memory) }
    // Any other error is the first fault of the bytes.
    ensures fault { IfErr result (λ e. e ≢ RecordingError.Memory → IsRecordingFault (joined parts.items) e) }
    // The first fault of the bytes is answered, unless memory runs out.
    ensures refused { (e : RecordingError) → IsRecordingFault (joined parts.items) e → (result ≡ Err e) ⊎ (result ≡ Err RecordingError.Memory) }
{
    if parts.len() < 2 {
        return read_recording(alloc, into_one(alloc, parts)?);
    }
    let files = shared(alloc, parts)?;
    match read_parted(rt, alloc, files.as_slice())? {
        Some(recording) => Ok(recording),
        None => read_recording(alloc, whole(alloc, files.as_slice())?),
    }
}

/// The recording that the bytes of a file spell, or their first fault.
fn read(
    alloc: Global,
    file: &Arc<Vec<u8>, Global>,
    bytes: &[u8],
) -> Result<Recording, RecordingError>
    requires { bytes.now ≡ (arc_value file.now).items }
    ensures answer { Answers result (IsSpelled bytes.now) (IsRecordingFault bytes.now) }
    ensures held { AreBytes bytes.now }
{
    let (header, rest) = read_header(bytes)?;
    let whole = bytes.len() as u64;
    let (table, rest) = read_formats(alloc, whole, header.formats, rest)?;
    let version = version_of(header.magic);
    let setting = Setting {
        file: bytes,
        marks: has_marks(version),
        start: header.start,
        end: header.end,
        formats: &table,
    };
    let (cpus, rest) = read_tracks(alloc, file, &setting, header.cpus, rest)?;
    if !rest.is_empty() {
        let offset = bytes.len() - rest.len();
        return Err(RecordingError::TrailingBytes(offset as u64));
    }
    Ok(Recording {
        version,
        start: header.start,
        end: header.end,
        formats: table.into_formats(),
        cpus,
    })
}
