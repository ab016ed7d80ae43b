// A shelf that holds its files in memory.
ghost use Rattle.std.specs.Prelude.{◌≡◌, ◌<◌, ◌≤◌, ◌++◌, ◌⊎◌, ◌∷◌, [], ℕ, List, true, false, length, map, MatchResult, IfOk, IfSome, IsErrOf};
ghost use Rattle.std.specs.Option.{option_copied};
ghost use Rattle.bt_io.specs.Calls.{one_more};
ghost use Rattle.bt_io.specs.Faults.{Rose};
ghost use Rattle.mem_io.specs.MemShelf.{file_of, file_named, bytes_within, reads_of};

use crate::calls::is_among;
use bt_core::items::Items;
use bt_io::names::note;
use bt_io::shelf::{Shelf, ShelfError};
use std::alloc::Global;
use std::marker::Model;

/// Files in memory, for tests. It tells their bytes.
///
/// The bytes under a name are those of the first file that has it. A call whose number is listed as
/// failing answers [`ShelfError::Failed`], and so does a call for a name that is not held; the name is
/// noted as failed then, and the count of faults rises by one, and at no other time. Calls are numbered
/// from 1. The count of calls and the count of faults stand still at 2^64 - 1.
pub struct MemShelf {
    files: Vec<(String, Vec<u8>)>,
    failing: Vec<u32>,
    calls: u64,
    faults: u64,
    asked: Items<Items<u8>>,
    failed: Items<Items<u8>>,
}

// Written out, so that it is one call wherever such a value is let go.
impl Drop for MemShelf {
    fn drop(self) {
        let Self {
            files: _,
            failing: _,
            calls: _,
            faults: _,
            asked: _,
            failed: _,
        } = self;
    }
}

impl Model for MemShelf {
    ghost use Rattle.std.specs.Prelude.{map};
    ghost use Rattle.mem_io.specs.MemShelf.{ShelfState, file_of};

    ghost Value = { ShelfState };

    ghost view = { λ s. record {
      files = map file_of s.files.items;
      failing = s.failing.items;
      calls = s.calls;
      faults = s.faults;
      asked = s.asked;
      failed = s.failed;
    } };
}

impl MemShelf {
    /// A shelf of these files, each a name and its bytes, of which the calls listed in `failing` fail.
    /// There was no call yet, no name was asked for, and there was no fault.
    pub fn new(alloc: Global, files: Vec<(String, Vec<u8>)>, failing: Vec<u32>) -> MemShelf
        ensures files { result.files ≡ map file_of files.items }
        ensures failing { result.failing ≡ failing.items }
        ensures uncalled { result.calls ≡ 0 }
        ensures faultless { result.faults ≡ 0 }
        ensures unasked { result.asked ≡ [] }
        ensures none_failed { result.failed ≡ [] }
    {
        MemShelf {
            files,
            failing,
            calls: 0,
            faults: 0,
            asked: Items::new(alloc),
            failed: Items::new(alloc),
        }
    }
}

impl Shelf for MemShelf {
    ghost held = { λ s name. file_named name s.files };

    ghost faults = { λ s. s.faults };

    ghost asked = { λ s. s.asked };

    ghost failed = { λ s. s.failed };

    fn read(&mut self, alloc: Global, name: &str, limit: u64) -> Result<Vec<u8>, ShelfError>
        // The answer: that of the files and of the call's number, or want of memory.
        ensures answer { MatchResult result
            (λ bytes. reads_of self.old name.now limit ≡ Ok bytes.items)
            (λ error. (error ≡ ShelfError.Memory) ⊎ (reads_of self.old name.now limit ≡ Err error)) }

        // What stands after it.
        ensures files_kept { self.new.files ≡ self.old.files }
        ensures failing_kept { self.new.failing ≡ self.old.failing }
        ensures counted { self.new.calls ≡ one_more self.old.calls }
        ensures fault { IsErrOf result ShelfError.Failed → self.new.faults ≡ one_more self.old.faults }
        ensures no_fault { IsErrOf result ShelfError.Failed ⊎ (self.new.faults ≡ self.old.faults) }
        ensures named { IsErrOf result ShelfError.Memory ⊎ (self.new.asked ≡ self.old.asked ++ name.now ∷ []) }
        ensures named_or_not { (self.new.asked ≡ self.old.asked ++ name.now ∷ []) ⊎ (self.new.asked ≡ self.old.asked) }

        // What every shelf promises.
        ensures bytes { IfOk result (λ bytes. IfSome (file_named name.now self.old.files) (λ all. bytes.items ≡ all)) }
        ensures fits { IfOk result (λ bytes. length bytes.items ≤ limit) }
        ensures too_long { IsErrOf result ShelfError.TooLong → IfSome (file_named name.now self.old.files) (λ all. limit < length all) }
        ensures failed { IsErrOf result ShelfError.Failed → Rose self.old.faults self.new.faults }
        ensures later { self.old.faults ≤ self.new.faults }
        ensures failed_name { IsErrOf result ShelfError.Failed → self.new.failed ≡ self.old.failed ++ name.now ∷ [] }
        ensures none_failed { IsErrOf result ShelfError.Failed ⊎ (self.new.failed ≡ self.old.failed) }
        ensures kept { (other : List ℕ) → file_named other self.new.files ≡ file_named other self.old.files }
    {
        self.calls = self.calls.saturating_add(1);
        note(alloc, &mut self.asked, name)?;
        let fails = is_among(self.calls, self.failing.as_slice());
        match answer(alloc, self.files.as_slice(), fails, name, limit) {
            Err(ShelfError::Failed) => {
                note(alloc, &mut self.failed, name)?;
                self.faults = self.faults.saturating_add(1);
                Err(ShelfError::Failed)
            }
            answer => answer,
        }
    }
}

// What a call answers that fails or does not.
fn answer(
    alloc: Global,
    files: &[(String, Vec<u8>)],
    fails: bool,
    name: &str,
    limit: u64,
) -> Result<Vec<u8>, ShelfError>
    ensures failing { fails ≡ true → result ≡ Err ShelfError.Failed }
    ensures answer { fails ≡ false → MatchResult result
        (λ bytes. bytes_within limit (file_named name.now (map file_of files.now)) ≡ Ok bytes.items)
        (λ error. (error ≡ ShelfError.Memory) ⊎ (bytes_within limit (file_named name.now (map file_of files.now)) ≡ Err error)) }
{
    if fails {
        return Err(ShelfError::Failed);
    }
    let Some(bytes) = find(files, name) else {
        return Err(ShelfError::Failed);
    };
    if bytes.len() as u64 > limit {
        return Err(ShelfError::TooLong);
    }
    Vec::from_slice(alloc, bytes).map_err(|_| ShelfError::Memory)
}

// The bytes of the first file that has this name.
fn find<'a>(files: &'a [(String, Vec<u8>)], name: &str) -> Option<&'a [u8]>
    ensures { option_copied result ≡ file_named name.now (map file_of files.now) }
{
    for (held, bytes) in files {
        if held.as_str() == name {
            return Some(bytes.as_slice());
        }
    }
    None
}
