// Named files.
ghost use Rattle.std.specs.Prelude.{◌≡◌, ◌<◌, ◌≤◌, ◌++◌, ◌⊎◌, ◌∷◌, [], ℕ, List, Option, length, IfOk, IfSome, IsErrOf};
ghost use Rattle.std.specs.Thread.{IsSync};
ghost use Rattle.bt_io.specs.Faults.{Rose};
ghost use Rattle.bt_io.specs.Parts.{joined};

use crate::parts::{Cutter, one_part};
use bt_core::items::Items;
use bt_core::memory::Memory;
use std::alloc::Global;
use std::thread::Threads;
use thiserror::Error;

/// Why a shelf gives no bytes.
#[derive(Clone, Copy, Debug, Error)]
pub enum ShelfError {
    /// The file could not be read.
    #[error("read fault")]
    Failed,
    /// The file holds more bytes than were asked for.
    #[error("too long")]
    TooLong,
    #[error("out of memory")]
    Memory,
}

impl From<Memory> for ShelfError {
    ghost use Rattle.std.specs.Prelude.{◌≡◌};
    ghost use Rattle.bt_io.specs.declared.shelf.ShelfError.TheVariants.{Memory};

    ghost from_gives = { λ _ error. error ≡ Memory };

    fn from(_error: Memory) -> ShelfError {
        ShelfError::Memory
    }
}

/// Files by their names.
pub trait Shelf {
    /// The bytes under a name, where the shelf tells them.
    ghost held: { Self → List ℕ → Option (List ℕ) };

    /// How many faults there were, which never falls.
    ghost faults: { Self → ℕ };

    /// The names that were asked for so far, in their order.
    ghost asked: { Self → List (List ℕ) };

    /// The names whose reads failed so far, in their order.
    ghost failed: { Self → List (List ℕ) };

    /// All bytes of the file of this name, which are at most `limit`.
    ///
    /// Answers [`ShelfError::TooLong`] where the file holds more, [`ShelfError::Failed`] only where
    /// the count of faults rose, with its name noted as failed, and [`ShelfError::Memory`] where there is no
    /// room for the bytes, or for the name.
    /// Whatever it answers, the files stay as they are. Want of memory may come before the name is
    /// noted.
    fn read(&mut self, alloc: Global, name: &str, limit: u64) -> Result<Vec<u8>, ShelfError>
        ensures bytes { IfOk result (λ bytes. IfSome (held self.old name.now) (λ all. bytes.items ≡ all)) }
        ensures fits { IfOk result (λ bytes. length bytes.items ≤ limit) }
        ensures too_long { IsErrOf result ShelfError.TooLong → IfSome (held self.old name.now) (λ all. limit < length all) }
        ensures failed { IsErrOf result ShelfError.Failed → Rose (faults self.old) (faults self.new) }
        ensures later { faults self.old ≤ faults self.new }
        ensures failed_name { IsErrOf result ShelfError.Failed → failed self.new ≡ failed self.old ++ name.now ∷ [] }
        ensures none_failed { IsErrOf result ShelfError.Failed ⊎ (failed self.new ≡ failed self.old) }
        ensures kept { (other : List ℕ) → held self.new other ≡ held self.old other }
        ensures named { IsErrOf result ShelfError.Memory ⊎ (asked self.new ≡ asked self.old ++ name.now ∷ []) }
        ensures named_or_not { (asked self.new ≡ asked self.old ++ name.now ∷ []) ⊎ (asked self.new ≡ asked self.old) };

    /// The same bytes, in one part or in several, which a shelf may read side by side where threads can be started. The cutter says where
    /// parts begin, for a shelf that asks it.
    ///
    /// Answers and leaves what [`Shelf::read`] does.
    fn read_in_parts<T: Threads + Sync, C: Cutter>(
        &mut self,
        _threads: &T,
        alloc: Global,
        name: &str,
        limit: u64,
        _cutter: &C,
    ) -> Result<Vec<Items<u8>>, ShelfError>
        requires { IsSync T.row }
        ensures bytes { IfOk result (λ parts. IfSome (held self.old name.now) (λ all. joined parts.items ≡ all)) }
        ensures fits { IfOk result (λ parts. length (joined parts.items) ≤ limit) }
        ensures too_long { IsErrOf result ShelfError.TooLong → IfSome (held self.old name.now) (λ all. limit < length all) }
        ensures failed { IsErrOf result ShelfError.Failed → Rose (faults self.old) (faults self.new) }
        ensures later { faults self.old ≤ faults self.new }
        ensures failed_name { IsErrOf result ShelfError.Failed → failed self.new ≡ failed self.old ++ name.now ∷ [] }
        ensures none_failed { IsErrOf result ShelfError.Failed ⊎ (failed self.new ≡ failed self.old) }
        ensures kept { (other : List ℕ) → held self.new other ≡ held self.old other }
        ensures named { IsErrOf result ShelfError.Memory ⊎ (asked self.new ≡ asked self.old ++ name.now ∷ []) }
        ensures named_or_not { (asked self.new ≡ asked self.old ++ name.now ∷ []) ⊎ (asked self.new ≡ asked self.old) }
    {
        match self.read(alloc, name, limit) {
            Ok(bytes) => Ok(one_part(alloc, bytes)?),
            Err(error) => Err(error),
        }
    }
}
