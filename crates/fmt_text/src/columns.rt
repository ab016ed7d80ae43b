// Texts in columns.
ghost use Rattle.std.specs.Prelude.{◌≡◌, ◌++◌, OnOk, replicate};
ghost use Rattle.fmt_text.specs.Columns.{right_in};

use bt_core::memory::Memory;

/// Writes this many copies of a byte. After [`Memory`] some of them may be written.
pub fn write_copies(out: &mut Vec<u8>, byte: u8, copies: usize) -> Result<(), Memory>
    ensures { OnOk result (out.new.items ≡ out.old.items ++ replicate copies byte) }
{
    for _ in 0..copies {
        out.push(byte)?;
    }
    Ok(())
}

/// Writes a text, and spaces before it up to this many columns; a longer text is not cut. After
/// [`Memory`] a part of it may be written.
pub fn write_right(out: &mut Vec<u8>, text: &[u8], columns: usize) -> Result<(), Memory>
    ensures { OnOk result (out.new.items ≡ out.old.items ++ right_in columns text.now) }
{
    write_copies(out, b' ', columns.saturating_sub(text.len()))?;
    out.extend_from_slice(text)?;
    Ok(())
}
