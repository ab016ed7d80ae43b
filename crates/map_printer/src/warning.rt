// The warnings of lost updates, of a cut loop and of lost events.
ghost use Rattle.std.specs.Prelude.{◌≡◌, ◌++◌, OnOk, codes, decimal};
ghost use Rattle.map_printer.specs.Ends.{lost_text, warning_text};
ghost use Rattle.map_printer.specs.ItemTexts.{cut_text, lost_events_text};

use crate::joined::write_three;
use bt_core::memory::Memory;
use itoa::Buffer;

/// Writes the beginning of a warning, with the number of what was lost.
fn write_number_lost(out: &mut Vec<u8>, lost: u64) -> Result<(), Memory>
    ensures { OnOk result (out.new.items ≡ out.old.items ++ (codes "WARNING: " ++ decimal lost)) }
{
    out.extend_from_slice(b"WARNING: ")?;
    out.extend_from_slice(Buffer::new().format(lost).as_bytes())?;
    Ok(())
}

/// Writes a whole warning.
fn write_warning(out: &mut Vec<u8>, name: &[u8], lost: u64) -> Result<(), Memory>
    ensures { OnOk result (out.new.items ≡ out.old.items ++ warning_text lost name.now) }
{
    write_number_lost(out, lost)?;
    write_three(out, b" updates lost in ", name, b"\n")
}

/// Writes the warning that so many updates of the map of this name were lost; nothing where none was.
///
/// After [`Memory`] a part of it may be written.
pub fn write_lost(out: &mut Vec<u8>, name: &[u8], lost: u64) -> Result<(), Memory>
    ensures { OnOk result (out.new.items ≡ out.old.items ++ lost_text lost name.now) }
{
    if 0 < lost {
        write_warning(out, name, lost)?;
    }
    Ok(())
}

/// Writes the warning that a run was cut at the loop on this line.
///
/// After [`Memory`] a part of it may be written.
pub fn write_cut(out: &mut Vec<u8>, line: u32) -> Result<(), Memory>
    ensures { OnOk result (out.new.items ≡ out.old.items ++ cut_text line) }
{
    write_three(
        out,
        b"WARNING: loop limit reached at line ",
        Buffer::new().format(line).as_bytes(),
        b"\n",
    )
}

/// Writes the warning that so many events of the CPU of this number were lost.
///
/// After [`Memory`] a part of it may be written.
pub fn write_lost_events(out: &mut Vec<u8>, cpu: u32, count: u64) -> Result<(), Memory>
    ensures { OnOk result (out.new.items ≡ out.old.items ++ lost_events_text cpu count) }
{
    write_number_lost(out, count)?;
    write_three(
        out,
        b" events lost on cpu ",
        Buffer::new().format(cpu).as_bytes(),
        b"\n",
    )
}
