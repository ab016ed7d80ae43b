// Laws of the definitions: what bytes spell, which fault they have, and what a valid recording has at each place.
ghost use Rattle.std.specs.Prelude.{◌≡◌, ◌≤◌, ◌<◌, ℕ, Some, List, slice_get, slice_index};
ghost use Rattle.event_layout.specs.declared.format.Format.{Format};
ghost use Rattle.event_layout.specs.ByName.{IsNamed};
ghost use Rattle.recordings.specs.declared.error.RecordingError.{RecordingError};
ghost use Rattle.recordings.specs.declared.recording.CpuTrack.{CpuTrack};
ghost use Rattle.recordings.specs.declared.recording.Entry.{Entry};
ghost use Rattle.recordings.specs.declared.recording.Entry.TheVariants as Entry;
ghost use Rattle.recordings.specs.declared.recording.Event.{Event};
ghost use Rattle.recordings.specs.declared.recording.Recording.{Recording};
ghost use Rattle.recordings.specs.Recordings.{recording_bytes, IsValidRecording};
ghost use Rattle.rec_format.specs.Faults.{IsRecordingFault};
ghost use Rattle.recordings.specs.Places.{AreBytes, entry_at_place, entry_time, HasFormat};

/// Two valid recordings have two spellings, so a spelling that is read gives its recording again.
pub fn one_recording()
    ensures { (a b : Recording) → IsValidRecording a → IsValidRecording b → recording_bytes a ≡ recording_bytes b → a ≡ b }
{}

/// Bytes have one first fault at most, and none where they spell a valid recording.
pub fn one_fault()
    ensures one { (bytes : List ℕ) (a b : RecordingError) → AreBytes bytes
        → IsRecordingFault bytes a → IsRecordingFault bytes b → a ≡ b }
    ensures none_beside { (bytes : List ℕ) (recording : Recording) (e : RecordingError) → AreBytes bytes
        → IsValidRecording recording → bytes ≡ recording_bytes recording → IsRecordingFault bytes e → ⊥ }
{}

/// Two formats of a valid recording that have one ID, or one system and name, stand at one place.
pub fn formats_are_apart()
    ensures id { (r : Recording) (i j : ℕ) (first second : Format) → IsValidRecording r
        → slice_get r.formats i ≡ Some first → slice_get r.formats j ≡ Some second
        → first.layout.id ≡ second.layout.id → i ≡ j }
    ensures name { (r : Recording) (i j : ℕ) (first second : Format) → IsValidRecording r
        → slice_get r.formats i ≡ Some first → slice_get r.formats j ≡ Some second
        → IsNamed first second.system second.layout.name → i ≡ j }
{}

/// Each event of a valid recording has its format: it stands at the event's `format` place, the payload begins with its ID,
/// and has the bytes of its layout.
pub fn events_have_formats()
    ensures { (r : Recording) (cpu place : ℕ) (event : Event) → IsValidRecording r
        → entry_at_place r cpu place ≡ Some (Entry.Event event) → HasFormat r.formats event }
{}

/// Each mark of a valid recording tells of some lost events, and where the version is 1 there is none.
pub fn marks_tell_losses()
    ensures some { (r : Recording) (cpu place time count : ℕ) → IsValidRecording r
        → entry_at_place r cpu place ≡ Some (Entry.Lost time count) → 1 ≤ count }
    ensures version { (r : Recording) (cpu place time count : ℕ) → IsValidRecording r
        → entry_at_place r cpu place ≡ Some (Entry.Lost time count) → r.version ≡ 2 }
{}

/// The entries of a CPU stand in the order of their times, from the recording's start to its end.
pub fn entries_are_in_time()
    ensures within { (r : Recording) (cpu place : ℕ) (entry : Entry) → IsValidRecording r
        → entry_at_place r cpu place ≡ Some entry → (r.start ≤ entry_time entry) × (entry_time entry ≤ r.end) }
    ensures in_order { (r : Recording) (cpu i j : ℕ) (first second : Entry) → IsValidRecording r
        → entry_at_place r cpu i ≡ Some first → entry_at_place r cpu j ≡ Some second → i ≤ j → entry_time first ≤ entry_time second }
{}

/// The numbers of the CPUs rise.
pub fn cpu_numbers_rise()
    ensures { (r : Recording) (i j : ℕ) (first second : CpuTrack) → IsValidRecording r
        → slice_get r.cpus i ≡ Some first → slice_get r.cpus j ≡ Some second → i < j → first.number < second.number }
{}
