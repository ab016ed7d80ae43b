// The formats that points match.
ghost use Rattle.std.specs.Prelude.{◌≡◌, length, IfOk};
ghost use Rattle.std.specs.List.{list_any};
ghost use Rattle.bt_attach.specs.Pattern.{matches};
ghost use Rattle.bt_attach.specs.Marks.{is_named, either_each};

use crate::pattern::is_match;
use bt_core::items::Items;
use bt_core::memory::Memory;
use event_layout::format::Format;
use std::alloc::Global;

/// Marks of formats, and whether a new point matched one.
#[derive(Drop)]
pub(crate) struct Marked {
    pub marks: Items<bool>,
    pub found: bool,
}

/// Whether a format's system and name match patterns.
fn is_named(alloc: Global, system: &[u8], name: &[u8], format: &Format) -> Result<bool, Memory>
    ensures { IfOk result (λ yes. yes ≡ is_named system.now name.now format.now) }
{
    if !is_match(alloc, system, format.system.as_slice())? {
        return Ok(false);
    }
    is_match(alloc, name, format.layout.name.as_slice())
}

/// Marks the formats that a tracepoint point matches, beside those that are marked.
pub(crate) fn mark(
    alloc: Global,
    marks: &[bool],
    formats: &[Format],
    system: &[u8],
    name: &[u8],
) -> Result<Marked, Memory>
    requires { length marks.now ≡ length formats.now }
    ensures marks { IfOk result (λ m. m.marks ≡ either_each (is_named system.now name.now) marks.now formats.now) }
    ensures found { IfOk result (λ m. m.found ≡ list_any (is_named system.now name.now) formats.now) }
{
    let mut next = Items::new(alloc);
    let mut found = false;
    for (k, format) in formats.iter().enumerate() {
        let here = is_named(alloc, system, name, format)?;
        found |= here;
        next.push(marks[k] | here)?;
    }
    Ok(Marked { marks: next, found })
}
