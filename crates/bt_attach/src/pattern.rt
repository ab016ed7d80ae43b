// Patterns of names: `*` stands for any run of bytes.
ghost use Rattle.std.specs.Prelude.{◌≡◌, ◌+◌, false, true, length, replicate, IfOk, OnOk, IsTrue, ◌↔◌, ◌∷◌};
ghost use Rattle.bt_attach.specs.Pattern.{IsMatch, matches};
ghost use Rattle.bt_attach.specs.Rows.{starred, met, after_byte};

use bt_core::memory::Memory;
use std::alloc::Global;
use std::mem;

/// The byte that stands for any run of bytes.
const STAR: u8 = 42;

/// The places that are reached behind a `*`: each from the first one that was reached on.
fn starred(row: &[bool], next: &mut Vec<bool>) -> Result<(), Memory>
    ensures { OnOk result (next.new.items ≡ starred false row.now) }
{
    next.clear();
    let mut reached = false;
    for here in row {
        reached |= *here;
        next.push(reached)?;
    }
    Ok(())
}

/// The places that are reached behind a byte: one further, where the name has this byte.
fn met(byte: u8, name: &[u8], row: &[bool], next: &mut Vec<bool>) -> Result<(), Memory>
    requires { length row.now ≡ length name.now + 1 }
    ensures { OnOk result (next.new.items ≡ met byte false row.now name.now) }
{
    next.clear();
    let mut reached = false;
    for (i, other) in name.iter().enumerate() {
        next.push(reached)?;
        reached = row[i] & (*other == byte);
    }
    next.push(reached)?;
    Ok(())
}

/// Puts the places that are reached behind one more byte of a pattern in the place of a list's items.
fn after_byte(byte: u8, name: &[u8], row: &[bool], next: &mut Vec<bool>) -> Result<(), Memory>
    requires { length row.now ≡ length name.now + 1 }
    ensures { OnOk result (next.new.items ≡ after_byte byte row.now name.now) }
{
    if byte == STAR {
        starred(row, next)
    } else {
        met(byte, name, row, next)
    }
}

/// The row of a name of which only the beginning is reached.
fn first_row(alloc: Global, name: &[u8]) -> Result<Vec<bool>, Memory>
    ensures { IfOk result (λ row. row.items ≡ true ∷ replicate (length name.now) false) }
{
    let mut row = vec![in alloc; false; name.len()]?;
    row.insert(0, true)?;
    Ok(row)
}

/// Whether a pattern matches a whole name, in time of their lengths' product.
pub fn is_match(alloc: Global, pattern: &[u8], name: &[u8]) -> Result<bool, Memory>
    ensures test { IfOk result (λ yes. yes ≡ matches pattern.now name.now) }
    ensures matched { IfOk result (λ yes. IsTrue yes ↔ IsMatch pattern.now name.now) }
{
    let mut row = first_row(alloc, name)?;
    let mut next = Vec::with_capacity(alloc, row.len())?;
    for byte in pattern {
        after_byte(*byte, name, &row, &mut next)?;
        mem::swap(&mut row, &mut next);
    }
    Ok(row[name.len()])
}
