// How much of a thing a recording may have, beside what the whole program bounds.
ghost use Rattle.std.specs.Prelude.{◌≡◌};
ghost use Rattle.recordings.specs.declared.limits.TheConstants.{SYSTEM_BYTES};

/// The most bytes that the name of a system may have.
pub const SYSTEM_BYTES: usize = 64;

/// The limit is the number that a reader of the container's page knows. Nothing runs.
pub fn limits_are()
    ensures system_bytes { SYSTEM_BYTES ≡ 64 }
{}
