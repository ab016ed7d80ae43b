// Laws of made recordings.
ghost use Rattle.std.specs.Prelude.{◌≡◌, ◌<◌, ◌≤◌, ◌^◌, ℕ};
ghost use Rattle.bt_core.specs.declared.limits.TheConstants.{EVENTS};
ghost use Rattle.recordings.specs.declared.recording.Recording.{Recording};
ghost use Rattle.recordings.specs.Recordings.{IsValidRecording};
ghost use Rattle.rec_gen.specs.Made.{IsMade};

/// A seed and a count make one recording, and it is valid.
pub fn one_recording()
    ensures one { (seed count : ℕ) (a b : Recording) → IsMade seed count a → IsMade seed count b → a ≡ b }
    ensures valid { (seed count : ℕ) (r : Recording) → count ≤ EVENTS → IsMade seed count r → IsValidRecording r }
{}
