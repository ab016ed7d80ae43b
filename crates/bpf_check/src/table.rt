// What is known at the places of code that were reached.
ghost use Rattle.std.specs.Prelude.{◌≡◌, ◌≤◌, ◌<◌, length, IsTrue, true, false, None, slice_index_or};
ghost use Rattle.bpf_check.specs.States.{CoversKnown, Covers};
ghost use Rattle.bpf_check.specs.Tables.{Spreads, IsInside, AreInside, Advances};

use crate::known::{Known, Seen, join, known_of};
use crate::ways::{Way, Ways};

// Whether the first says no more of a register.
fn keeps_known(a: Known, b: Known) -> bool
    ensures covered { IsTrue result → CoversKnown a b }
    ensures other { result ≡ false → CoversKnown a b → ⊥ }
{
    match a {
        Known::Unset => true,
        Known::Num => match b {
            Known::Unset => false,
            _ => true,
        },
        Known::Const(m) => match b {
            Known::Const(n) => m == n,
            _ => false,
        },
    }
}

// Whether the first says no more of any register, and has no more credit.
fn keeps(a: &Seen, b: &Seen) -> bool
    ensures covered { IsTrue result → Covers a.now b.now }
    ensures other { result ≡ false → Covers a.now b.now → ⊥ }
{
    for r in 0..10 {
        if !keeps_known(known_of(a, r), known_of(b, r)) {
            return false;
        }
    }
    a.credit <= b.credit
}

// Adds what is known at a place, and answers whether this changed the table.
fn spread(table: &mut [Option<Seen>], way: Way) -> bool
    requires { way.place < length table.old }
    ensures { Spreads (slice_index_or table.old way.place None) table.old table.new way result }
{
    match table[way.place] {
        None => {
            table[way.place] = Some(way.seen);
            true
        }
        Some(seen) => {
            if keeps(&seen, &way.seen) {
                false
            } else {
                table[way.place] = Some(join(&seen, &way.seen));
                true
            }
        }
    }
}

// The lower of two places, where the first counts.
fn lower(counts: bool, place: usize, next: usize) -> usize
    ensures early { result ≤ next }
    ensures before { counts ≡ true → result ≤ place }
    ensures otherwise { counts ≡ false → result ≡ next }
{
    if counts && place < next { place } else { next }
}

// Adds what is known on a way, and answers where to go on: at the place that changed, where that is before the next one.
fn advance_one(table: &mut [Option<Seen>], next: usize, way: Way) -> usize
    requires { IsInside (length table.old) way }
    ensures { Advances table.old table.new (Ways.To way) next result }
{
    let changed = spread(table, way);
    lower(changed, way.place, next)
}

/// Adds what is known on all ways, and answers where to go on.
pub fn advance(table: &mut [Option<Seen>], next: usize, ways: Ways) -> usize
    requires { AreInside (length table.old) ways }
    ensures { Advances table.old table.new ways next result }
{
    match ways {
        Ways::Finish => next,
        Ways::To(way) => advance_one(table, next, way),
        Ways::Either(way, other) => {
            let first = advance_one(table, next, way);
            advance_one(table, first, other)
        }
    }
}
