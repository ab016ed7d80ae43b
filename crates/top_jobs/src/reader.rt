// On how many threads a recording is read.
ghost use Rattle.std.specs.Prelude.{◌≡◌, ◌≢◌, ◌<◌, ◌≤◌, ◌++◌, ◌⊎◌, ◌∷◌, [], ℕ, List, length, IfOk, IfErr, IfSome, IsErrOf, Ok, Err};
ghost use Rattle.bt_io.specs.Faults.{Rose};
ghost use Rattle.bt_io.specs.Parts.{joined};
ghost use Rattle.bt_io.specs.declared.shelf.ShelfError.TheVariants as shelf_error;
ghost use Rattle.recordings.specs.declared.recording.Recording.{Recording as Read};
ghost use Rattle.recordings.specs.declared.error.RecordingError.{RecordingError as Fault};
ghost use Rattle.recordings.specs.declared.error.RecordingError.TheVariants as fault;
ghost use Rattle.recordings.specs.Recordings.{recording_bytes, IsValidRecording};
ghost use Rattle.rec_format.specs.Faults.{IsRecordingFault};

use bt_core::items::Items;
use bt_io::parts::{into_one, one_part};
use bt_io::shelf::{Shelf, ShelfError};
use rec_format::reading::{read_recording, read_recording_on_threads};
use rec_format::sections::BeforeCpus;
use recordings::error::RecordingError;
use recordings::recording::Recording;
use std::alloc::Global;
use std::thread::Threads;

/// Reads the bytes of recordings, in parts, and what they spell.
pub(crate) trait Reader {
    ghost can_read: { Self → Type 0 };

    /// All bytes of the file of this name, which are at most `limit`, as [`Shelf::read_in_parts`] answers them.
    fn parts<S: Shelf>(
        &self,
        alloc: Global,
        name: &str,
        limit: u64,
        shelf: &mut S,
    ) -> Result<Vec<Items<u8>>, ShelfError>
        requires { can_read self.now }
        ensures bytes { IfOk result (λ parts. IfSome (S.held shelf.old name.now) (λ all. joined parts.items ≡ all)) }
        ensures fits { IfOk result (λ parts. length (joined parts.items) ≤ limit) }
        ensures too_long { IsErrOf result shelf_error.TooLong → IfSome (S.held shelf.old name.now) (λ all. limit < length all) }
        ensures failed { IsErrOf result shelf_error.Failed → Rose (S.faults shelf.old) (S.faults shelf.new) }
        ensures later { S.faults shelf.old ≤ S.faults shelf.new }
        ensures failed_name { IsErrOf result shelf_error.Failed → S.failed shelf.new ≡ S.failed shelf.old ++ name.now ∷ [] }
        ensures none_failed { IsErrOf result shelf_error.Failed ⊎ (S.failed shelf.new ≡ S.failed shelf.old) }
        ensures kept { (other : List ℕ) → S.held shelf.new other ≡ S.held shelf.old other }
        ensures named { IsErrOf result shelf_error.Memory ⊎ (S.asked shelf.new ≡ S.asked shelf.old ++ name.now ∷ []) }
        ensures named_or_not { (S.asked shelf.new ≡ S.asked shelf.old ++ name.now ∷ []) ⊎ (S.asked shelf.new ≡ S.asked shelf.old) };

    /// The recording that the bytes spell, as [`read_recording`] tells it.
    ///
    /// # Errors
    ///
    /// The first check that fails, in the order of the bytes. [`RecordingError::Memory`] may come at any bytes.
    fn read(&self, alloc: Global, parts: Vec<Items<u8>>) -> Result<Recording, RecordingError>
        requires { can_read self.now }
        ensures valid { IfOk result IsValidRecording }
        ensures spelled { IfOk result (λ recording. joined parts.items ≡ recording_bytes recording) }
        ensures only { (recording : Read) → IsValidRecording recording → joined parts.items ≡ recording_bytes recording
            → (result ≡ Ok recording) ⊎ (result ≡ Err fault.Memory) }
        ensures fault { IfErr result (λ e. e ≢ fault.Memory → IsRecordingFault (joined parts.items) e) }
        ensures refused { (e : Fault) → IsRecordingFault (joined parts.items) e → (result ≡ Err e) ⊎ (result ≡ Err fault.Memory) };
}

/// Reads on the caller's thread.
#[derive(Clone, Copy)]
pub(crate) struct OneThread;

/// Reads the file in parts, and then the entries of each CPU, each on a thread of its own where threads can be started.
#[derive(Drop)]
pub(crate) struct ManyThreads<'r, R> {
    pub rt: &'r R,
}

impl Reader for OneThread {
    ghost use Rattle.std.specs.Prelude.{⊤};

    ghost can_read = { λ s. ⊤ };

    fn parts<S: Shelf>(
        &self,
        alloc: Global,
        name: &str,
        limit: u64,
        shelf: &mut S,
    ) -> Result<Vec<Items<u8>>, ShelfError> {
        match shelf.read(alloc, name, limit) {
            Ok(bytes) => Ok(one_part(alloc, bytes)?),
            Err(error) => Err(error),
        }
    }

    fn read(&self, alloc: Global, parts: Vec<Items<u8>>) -> Result<Recording, RecordingError> {
        read_recording(alloc, into_one(alloc, parts)?)
    }
}

impl<R: Threads + Sync> Reader for ManyThreads<'_, R> {
    ghost use Rattle.std.specs.Thread.{IsSync};

    ghost can_read = { λ s. IsSync R.row };

    fn parts<S: Shelf>(
        &self,
        alloc: Global,
        name: &str,
        limit: u64,
        shelf: &mut S,
    ) -> Result<Vec<Items<u8>>, ShelfError> {
        shelf.read_in_parts(self.rt, alloc, name, limit, &BeforeCpus)
    }

    fn read(&self, alloc: Global, parts: Vec<Items<u8>>) -> Result<Recording, RecordingError> {
        read_recording_on_threads(self.rt, alloc, parts)
    }
}
