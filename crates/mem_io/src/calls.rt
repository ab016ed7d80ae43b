// Calls by their numbers.
ghost use Rattle.std.specs.Prelude.{◌≡◌};
ghost use Rattle.mem_io.specs.Calls.{is_listed};

// Whether the call of this number is among those listed.
pub(crate) fn is_among(number: u64, numbers: &[u32]) -> bool
    ensures { result ≡ is_listed number numbers.now }
{
    numbers.iter().any(|listed| u64::from(*listed) == number)
}
