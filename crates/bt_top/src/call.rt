// The call of the program.

use crate::serve::serve;
use bt_core::memory::Memory;
use bt_io::shelf::Shelf;
use bt_io::sink::{Sink, write_all};
use std::alloc::{AllocError, Global};
use std::io::ErrorKind;
use std::rt::Env;
use std::sync::Wait;
use std::thread::Threads;
use std::{env, mem};
use turn_lock::gate::Open;

/// The status of want of memory.
const OUT_OF_MEMORY: u8 = 6;

/// The words after the program's name. Where one is no UTF-8 there are none, so that the call is
/// answered by how the program is used. [`Memory`] where the system refuses it.
fn words_of<R: Env + AllocGlobal>(rt: &R) -> Result<Vec<String>, Memory> {
    match env::args(rt) {
        Ok(args) => Ok(args.skip(1).collect(rt.alloc())?),
        // The system refused memory, as an allocator does.
        Err(error) if error.kind() == ErrorKind::OutOfMemory => Err(AllocError.into()),
        Err(_) => Ok(Vec::new(rt.alloc())),
    }
}

/// Does what the words of the command line ask for, by [`serve`], and answers the status to end with. Where memory runs out before the words are
/// there, the status is that of want of memory, and its line is told to `err`.
///
/// What the run leaves is not given back: the system takes it at the end of the program, where giving back each step of a long run takes a
/// tenth of its time.
pub fn status_of_call<R: Env + AllocGlobal + Threads + Wait + Sync, S: Shelf, K: Sink, E: Sink>(
    rt: &R,
    alloc: Global,
    shelf: &mut S,
    out: &mut K,
    err: &mut E,
) -> u8 {
    let Ok(words) = words_of(rt) else {
        let _ = write_all(err, b"out of memory\n");
        return OUT_OF_MEMORY;
    };
    let report = serve(rt, alloc, words.as_slice(), shelf, out, err, &Open);
    let status = report.status;
    mem::forget(report);
    status
}
