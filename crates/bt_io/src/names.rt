// The names that a shelf was asked for.
ghost use Rattle.std.specs.Prelude.{◌≡◌, ◌∷◌, [], ◌++◌, OnOk, OnErr};

use bt_core::items::Items;
use bt_core::memory::Memory;
use std::alloc::Global;

/// Adds a name at the end of the names asked. After [`Memory`] they are as before.
pub fn note(alloc: Global, asked: &mut Items<Items<u8>>, name: &str) -> Result<(), Memory>
    ensures ok { OnOk result (asked.new ≡ asked.old ++ name.now ∷ []) }
    ensures err { OnErr result (asked.new ≡ asked.old) }
{
    let bytes = Vec::from_slice(alloc, name.as_bytes())?;
    asked.push(Items::of(bytes))
}
