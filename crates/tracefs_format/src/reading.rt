// Reading a format text.
ghost use Rattle.std.specs.Prelude.{◌≡◌, ◌≢◌, ◌⊎◌, ◌∷◌, [], ◌++◌, ◌+◌, ◌<◌};
ghost use Rattle.std.specs.Prelude.{◌^◌, drop, length, IfOk, IfErr, Some, Ok, Err};
ghost use Rattle.bt_core.specs.Want.{out_of_memory};
ghost use Rattle.event_layout.specs.declared.layout.Layout.{Layout};
ghost use Rattle.event_layout.specs.declared.error.FormatError.{FormatError};
ghost use Rattle.event_layout.specs.Lines.{text_lines};
ghost use Rattle.event_layout.specs.Layouts.{IsLayoutOf, layout_fault, line_fault, lines_fault, read_lines, described};
ghost use Rattle.tracefs_format.specs.Tables.{Answers, IsReadOf};

use crate::line::{field_on, id_on, name_on};
use crate::lines::Lines;
use crate::table::FieldTable;
use bt_core::items::Items;
use event_layout::error::FormatError;
use event_layout::layout::Layout;
use std::alloc::Global;

/// The layout of a format text, in the form of `/sys/kernel/tracing/events/SYSTEM/EVENT/format`.
///
/// Lines end at newlines; blanks and carriage returns at their ends are passed over. The text is
/// read in time linear in its bytes, apart from looking up the names of its fields in an ordered set.
///
/// # Errors
///
/// The first rule that the text breaks, in the order of its lines: [`FormatError::NoName`] at line 1,
/// [`FormatError::BadId`] at line 2, [`FormatError::BadField`] at line 3 or later, and at one line
/// [`FormatError::BadField`] before [`FormatError::Overlong`] before [`FormatError::SameName`]. What
/// stands after a line that begins with `print fmt:` is not read. [`FormatError::Memory`] may come at
/// any text.
pub fn read_layout(alloc: Global, text: &[u8]) -> Result<Layout, FormatError>
    requires { length text.now < 2 ^ 32 }
    // What is read is the text's layout.
    ensures found { IfOk result (λ layout. IsLayoutOf text.now layout) }
    // The text's layout is read, unless memory runs out.
    ensures only { (layout : Layout) → IsLayoutOf text.now layout → (result ≡ Ok layout) ⊎ (result ≡ Err (FormatError.Memory out_of_memory)) }
    // Any other error is the first rule that the text breaks.
    ensures fault { IfErr result (λ e. e ≢ FormatError.Memory out_of_memory → layout_fault text.now ≡ Some e) }
    // The first rule that the text breaks is answered, unless memory runs out.
    ensures refused { (e : FormatError) → layout_fault text.now ≡ Some e → (result ≡ Err e) ⊎ (result ≡ Err (FormatError.Memory out_of_memory)) }
{
    read(alloc, text)
}

/// What the text's lines say, or the first fault.
#[tactic(auto, unfolding(event_layout::specs::Layouts::layout_fault))]
fn read(alloc: Global, text: &[u8]) -> Result<Layout, FormatError>
    requires { length text.now < 2 ^ 32 }
    ensures { Answers result (layout_fault text.now) (IsReadOf text.now) }
{
    let mut lines = Lines::of(text);
    let Some(name) = name_on(lines.next_or_empty()) else {
        return Err(FormatError::NoName);
    };
    let Some(id) = id_on(lines.next_or_empty()) else {
        return Err(FormatError::BadId);
    };
    if lines.next_or_empty() != b"format:".as_slice() {
        return Err(FormatError::BadField(3));
    }
    let table = read_fields(alloc, lines)?;
    Ok(table.into_layout(Items::from_slice(alloc, name)?, id))
}

/// The fields that lines describe, of which the first is line 4.
fn read_fields(alloc: Global, mut lines: Lines<'_>) -> Result<FieldTable, FormatError>
    requires { length lines + 4 < 2 ^ 32 }
    ensures { Answers result (lines_fault 4 [] (read_lines lines.entry)) (λ table. table ≡ described (read_lines lines.entry)) }
{
    let mut table = FieldTable::new(alloc);
    let mut number = 4;
    while let Some(line) = lines.next() {
        if line.starts_with(b"print fmt:") {
            return Ok(table);
        }
        table = read_line(alloc, table, line, number)?;
        number += 1;
    }
    Ok(table)
}

/// The table with the field that a line describes, if the line is not empty.
fn read_line(
    alloc: Global,
    table: FieldTable,
    line: &[u8],
    number: u32,
) -> Result<FieldTable, FormatError>
    ensures { Answers result (line_fault number table line.now) (λ with_line. with_line ≡ table ++ described (line.now ∷ [])) }
{
    if line.is_empty() {
        return Ok(table);
    }
    match field_on(line) {
        Some(field) => table.with(alloc, field, number),
        None => Err(FormatError::BadField(number)),
    }
}
