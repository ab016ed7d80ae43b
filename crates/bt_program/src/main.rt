//! btreplay: replays recorded tracepoint events through bpftrace scripts.
#![tactic(auto)]

use bt_io::real::{FileShelf, StdSink};
use bt_top::call::status_of_call;
use std::process::ExitCode;

/// Does what the words ask for over the files of the system, and ends with its status.
fn main(rt: HostRuntime) -> ExitCode {
    let mut shelf = FileShelf::new(&rt, rt.alloc());
    let mut out = StdSink::out(rt);
    let mut err = StdSink::err(rt);
    ExitCode::from(status_of_call(&rt, rt.alloc(), &mut shelf, &mut out, &mut err))
}
