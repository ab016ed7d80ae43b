// The trusted edge: real files, standard output and standard error.
ghost use Rattle.std.specs.Prelude.{◌≡◌, ◌↔◌, [], ◌∷◌, ◌++◌, ◌⊎◌, None, ◌<◌, ◌≤◌, length, IfOk, IfSome, IsErrOf, OnOk, OnErr, Err};
ghost use Rattle.std.specs.IoError.{error_kind};
ghost use Rattle.std.specs.Thread.{IsSync};
ghost use Rattle.bt_io.specs.Calls.{one_more};
ghost use Rattle.bt_io.specs.Faults.{Rose};
ghost use Rattle.bt_io.specs.Parts.{joined};

use crate::names::note;
use crate::parts::{Cutter, one_part};
use crate::shelf::{Shelf, ShelfError};
use crate::sink::{Sink, SinkFailed};
use crate::spans::{SPARE_BYTES, read_spans};
use bt_core::items::Items;
use bt_core::memory::Memory;
use std::alloc::Global;
use std::fs::{File, OpenFile};
use std::io::{ErrorKind, Print, Read, Stderr, Stdout};
use std::marker::Model;
use std::rt::Files;
use std::thread::Threads;
use std::{fs, io};

/// The files of the system, named by their paths. It tells no content.
///
/// A path that cannot be opened or read to its end is a fault. An interrupted read is tried again.
#[derive(Drop)]
pub struct FileShelf<R> {
    rt: R,
    faults: u64,
    asked: Items<Items<u8>>,
    failed: Items<Items<u8>>,
}

impl<R> Model for FileShelf<R> {
    ghost use Rattle.bt_io.specs.Real.{ReadLog};

    ghost Value = { ReadLog };

    ghost view = { λ s. record { faults = s.faults; asked = s.asked; failed = s.failed } };
}

impl<R: Files> FileShelf<R> {
    /// The files that `rt` opens. No name was asked for yet, and there was no fault.
    pub fn new(rt: R, alloc: Global) -> FileShelf<R>
        ensures faultless { result.faults ≡ 0 }
        ensures unasked { result.asked ≡ [] }
        ensures none_failed { result.failed ≡ [] }
    {
        FileShelf {
            rt,
            faults: 0,
            asked: Items::new(alloc),
            failed: Items::new(alloc),
        }
    }
}

impl<R> FileShelf<R> {
    // What was read, handed on. Where it is a fault, the count rises and the name is noted as failed.
    fn told<A: Drop>(
        &mut self,
        alloc: Global,
        name: &str,
        answer: Result<A, ShelfError>,
    ) -> Result<A, ShelfError>
        ensures answer { (result ≡ answer) ⊎ (result ≡ Err ShelfError.Memory) }
        ensures asked { self.new.asked ≡ self.old.asked }
        ensures later { self.old.faults ≤ self.new.faults }
        ensures fault { IsErrOf result ShelfError.Failed → self.new.faults ≡ one_more self.old.faults }
        ensures no_fault { IsErrOf result ShelfError.Failed ⊎ (self.new.faults ≡ self.old.faults) }
        ensures failed_name { IsErrOf result ShelfError.Failed → self.new.failed ≡ self.old.failed ++ name.now ∷ [] }
        ensures none_failed { IsErrOf result ShelfError.Failed ⊎ (self.new.failed ≡ self.old.failed) }
    {
        match answer {
            Err(ShelfError::Failed) => {
                note(alloc, &mut self.failed, name)?;
                self.faults = self.faults.saturating_add(1);
                Err(ShelfError::Failed)
            }
            answer => answer,
        }
    }
}

impl<R: Files<File = File>> Shelf for FileShelf<R> {
    ghost held = { λ s name. None };

    ghost faults = { λ s. s.faults };

    ghost asked = { λ s. s.asked };

    ghost failed = { λ s. s.failed };

    fn read(&mut self, alloc: Global, name: &str, limit: u64) -> Result<Vec<u8>, ShelfError>
        // What stands after it.
        ensures fault { IsErrOf result ShelfError.Failed → self.new.faults ≡ one_more self.old.faults }
        ensures no_fault { IsErrOf result ShelfError.Failed ⊎ (self.new.faults ≡ self.old.faults) }
        ensures named { IsErrOf result ShelfError.Memory ⊎ (self.new.asked ≡ self.old.asked ++ name.now ∷ []) }
        ensures named_or_not { (self.new.asked ≡ self.old.asked ++ name.now ∷ []) ⊎ (self.new.asked ≡ self.old.asked) }

        // What every shelf promises, of one that tells no content.
        ensures fits { IfOk result (λ bytes. length bytes.items ≤ limit) }
        ensures failed { IsErrOf result ShelfError.Failed → Rose self.old.faults self.new.faults }
        ensures later { self.old.faults ≤ self.new.faults }
        ensures failed_name { IsErrOf result ShelfError.Failed → self.new.failed ≡ self.old.failed ++ name.now ∷ [] }
        ensures none_failed { IsErrOf result ShelfError.Failed ⊎ (self.new.failed ≡ self.old.failed) }
    {
        note(alloc, &mut self.asked, name)?;
        let answer = load(&self.rt, alloc, name, limit);
        self.told(alloc, name, answer)
    }

    fn read_in_parts<T: Threads + Sync, C: Cutter>(
        &mut self,
        threads: &T,
        alloc: Global,
        name: &str,
        limit: u64,
        cutter: &C,
    ) -> Result<Vec<Items<u8>>, ShelfError>
        requires { IsSync T.row }

        // What stands after it.
        ensures fault { IsErrOf result ShelfError.Failed → self.new.faults ≡ one_more self.old.faults }
        ensures no_fault { IsErrOf result ShelfError.Failed ⊎ (self.new.faults ≡ self.old.faults) }
        ensures named { IsErrOf result ShelfError.Memory ⊎ (self.new.asked ≡ self.old.asked ++ name.now ∷ []) }
        ensures named_or_not { (self.new.asked ≡ self.old.asked ++ name.now ∷ []) ⊎ (self.new.asked ≡ self.old.asked) }

        // What every shelf promises, of one that tells no content.
        ensures fits { IfOk result (λ parts. length (joined parts.items) ≤ limit) }
        ensures failed { IsErrOf result ShelfError.Failed → Rose self.old.faults self.new.faults }
        ensures later { self.old.faults ≤ self.new.faults }
        ensures failed_name { IsErrOf result ShelfError.Failed → self.new.failed ≡ self.old.failed ++ name.now ∷ [] }
        ensures none_failed { IsErrOf result ShelfError.Failed ⊎ (self.new.failed ≡ self.old.failed) }
    {
        note(alloc, &mut self.asked, name)?;
        let answer = load_parts(&self.rt, threads, alloc, name, limit, cutter);
        self.told(alloc, name, answer)
    }
}

// A vector with room for the bytes that the system tells of a file, or for as many as the limit where those are fewer. What it
// tells is a guess, as a file may change: whatever comes is read.
fn room_for<F: OpenFile>(alloc: Global, file: &F, limit: u64) -> Result<Vec<u8>, Memory>
    ensures { IfOk result (λ bytes. bytes.items ≡ []) }
{
    let told = match file.metadata() {
        Ok(metadata) => metadata.len(),
        Err(_) => 0,
    };
    let room = told.min(limit).saturating_add(SPARE_BYTES);
    Ok(Vec::with_capacity(alloc, usize::try_from(room)?)?)
}

// The bytes of a file by its name.
fn load<R: Files>(rt: &R, alloc: Global, name: &str, limit: u64) -> Result<Vec<u8>, ShelfError>
    ensures fits { IfOk result (λ bytes. length bytes.items ≤ limit) }
{
    let file = fs::open(rt, name).map_err(shelf_error)?;
    load_whole(alloc, file, limit)
}

// The bytes of a file by its name, in parts.
fn load_parts<R: Files<File = File>, T: Threads + Sync, C: Cutter>(
    rt: &R,
    threads: &T,
    alloc: Global,
    name: &str,
    limit: u64,
    cutter: &C,
) -> Result<Vec<Items<u8>>, ShelfError>
    ensures fits { IfOk result (λ parts. length (joined parts.items) ≤ limit) }
{
    let file = fs::open(rt, name).map_err(shelf_error)?;
    if let Some(parts) = read_spans(threads, alloc, &file, limit, cutter)? {
        return Ok(parts);
    }
    match load_whole(alloc, file, limit) {
        Ok(bytes) => Ok(one_part(alloc, bytes)?),
        Err(error) => Err(error),
    }
}

// The bytes of a file. At most one byte more than the limit is read.
fn load_whole<F: OpenFile + Read + Drop>(
    alloc: Global,
    file: F,
    limit: u64,
) -> Result<Vec<u8>, ShelfError>
    ensures fits { IfOk result (λ bytes. length bytes.items ≤ limit) }
{
    let mut bytes = room_for(alloc, &file, limit)?;
    file.take(limit.saturating_add(1))
        .read_to_end(&mut bytes)
        .map_err(shelf_error)?;
    if bytes.len() as u64 > limit {
        Err(ShelfError::TooLong)
    } else {
        Ok(bytes)
    }
}

// Want of memory is told apart from every other error of the system.
fn shelf_error(error: io::Error) -> ShelfError
    ensures memory { (result ≡ ShelfError.Memory) ↔ (error_kind error ≡ ErrorKind.OutOfMemory) }
    ensures failed { (result ≡ ShelfError.Memory) ⊎ (result ≡ ShelfError.Failed) }
{
    match error.kind() {
        ErrorKind::OutOfMemory => ShelfError::Memory,
        _ => ShelfError::Failed,
    }
}

/// How often a write that a signal interrupts is begun in one call.
pub const TRIES: usize = 64;

/// Standard output or standard error. It tells no content.
///
/// An error of the system and a write that takes nothing are faults. A write that a signal
/// interrupts before it took anything is begun again, 64 times at most in one call; then it is a
/// fault.
#[derive(Drop)]
pub struct StdSink<P> {
    stream: P,
    faults: u64,
}

impl<P> Model for StdSink<P> {
    ghost use Rattle.bt_io.specs.Real.{WriteLog};

    ghost Value = { WriteLog };

    ghost view = { λ s. record { faults = s.faults } };
}

impl<P> StdSink<P> {
    /// A sink over a stream. There was no fault yet.
    pub fn over(stream: P) -> StdSink<P>
        ensures faultless { result.faults ≡ 0 }
    {
        StdSink { stream, faults: 0 }
    }
}

impl StdSink<Stdout> {
    /// Standard output. There was no fault yet.
    pub fn out(rt: HostRuntime) -> StdSink<Stdout>
        ensures faultless { result.faults ≡ 0 }
    {
        StdSink::over(rt.stdout())
    }
}

impl StdSink<Stderr> {
    /// Standard error. There was no fault yet.
    pub fn err(rt: HostRuntime) -> StdSink<Stderr>
        ensures faultless { result.faults ≡ 0 }
    {
        StdSink::over(rt.stderr())
    }
}

impl<P: Print> Sink for StdSink<P> {
    ghost taken = { λ s. None };

    ghost faults = { λ s. s.faults };

    fn write(&mut self, piece: &[u8]) -> Result<usize, SinkFailed>
        // What stands after it.
        ensures fault { OnErr result (self.new.faults ≡ one_more self.old.faults) }
        ensures no_fault { OnOk result (self.new.faults ≡ self.old.faults) }

        // What every sink promises, of one that tells no content.
        ensures some { IfOk result (λ n. 0 < n) }
        ensures within { IfOk result (λ n. n ≤ length piece.now) }
        ensures failed { OnErr result (Rose self.old.faults self.new.faults) }
        ensures later { self.old.faults ≤ self.new.faults }
    {
        match put(&self.stream, piece) {
            Some(count) => Ok(count),
            None => {
                self.faults = self.faults.saturating_add(1);
                Err(SinkFailed)
            }
        }
    }
}

// How many of the first bytes of the piece the stream took, or `None` where it took none.
fn put<P: Print>(stream: &P, piece: &[u8]) -> Option<usize>
    ensures some { IfSome result (λ count. 0 < count) }
    ensures within { IfSome result (λ count. count ≤ length piece.now) }
{
    for _ in 0..TRIES {
        match stream.write_some(piece) {
            Ok(0) => return None,
            Ok(count) => return Some(count),
            Err(error) => {
                if error.kind() != ErrorKind::Interrupted {
                    return None;
                }
            }
        }
    }
    None
}
