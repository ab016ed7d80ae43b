// Limits of this call alone.
ghost use Rattle.std.specs.Prelude.{◌≡◌};
ghost use Rattle.top_refusals.specs.declared.limits.TheConstants.{ACCOUNT_BYTES};

/// The most bytes that an account may have.
pub const ACCOUNT_BYTES: u64 = 268_435_456;

/// The limit is the number that a reader of the page on accounts knows. Nothing runs.
pub fn limits_are()
    ensures account_bytes { ACCOUNT_BYTES ≡ 268435456 }
{}
