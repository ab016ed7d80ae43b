// Values that are kept while something may fail.
ghost use Rattle.std.specs.Prelude.{◌≡◌, Ok, Err, MatchResult};

/// What an answer has, behind what was kept meanwhile, which is let go where the answer is an error.
///
/// A function that keeps a tree over `?` calls it, so that the tree is let go in one place.
pub fn beside<K: Drop, T, E>(kept: K, answer: Result<T, E>) -> Result<(K, T), E>
    ensures { MatchResult result (λ both. (both.0 ≡ kept) × (answer ≡ Ok both.1)) (λ e. answer ≡ Err e) }
{
    match answer {
        Ok(value) => Ok((kept, value)),
        Err(error) => Err(error),
    }
}
