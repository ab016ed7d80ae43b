// Moments at which bodies are run.
ghost use Rattle.std.specs.Prelude.{◌≡◌, ◌≤◌, IsTrue, length};
ghost use Rattle.walk_meaning.specs.Served.{least_length};

use bt_core::context::Context;
use bt_core::text::Str64;
use event_layout::layout::Layout;

/// The run of a body: the time and thread that it sees, its payload, and the actor that runs it, of so many.
#[derive(Clone, Copy)]
pub struct Moment {
    pub time: u64,
    pub tid: u32,
    pub payload: &'static [u8],
    pub actor: u32,
    pub actors: u32,
}

/// The main actor, beside one CPU.
pub const MAIN: Moment = Moment {
    time: 0,
    tid: 0,
    payload: b"",
    actor: 1,
    actors: 2,
};

/// A CPU beside another one and the main actor, at an event with the number 1.
pub const AT_ONE: Moment = Moment {
    time: 1,
    tid: 1,
    payload: b"\0\0\0\0\0\0\0\0\x01\0\0\0\0\0\0\0",
    actor: 0,
    actors: 3,
};

/// The same at an event with the number 2.
pub const AT_TWO: Moment = Moment {
    time: 2,
    tid: 1,
    payload: b"\0\0\0\0\0\0\0\0\x02\0\0\0\0\0\0\0",
    actor: 0,
    actors: 3,
};

/// The same at an event with the number -4.
pub const AT_MINUS_FOUR: Moment = Moment {
    time: 3,
    tid: 1,
    payload: b"\0\0\0\0\0\0\0\0\xfc\xff\xff\xff\xff\xff\xff\xff",
    actor: 0,
    actors: 3,
};

/// The only CPU at events without fields of their own, of thread 5 at 103.
pub const LEFT: Moment = Moment {
    time: 103,
    tid: 5,
    payload: b"\0\0\0\0\0\0\0\0",
    actor: 0,
    actors: 2,
};

/// Whether a payload is as long as its event's layout says, or longer.
pub(crate) fn is_long(layout: &Option<Layout>, payload: &[u8]) -> bool
    ensures { IsTrue result → least_length layout.now ≤ length payload.now }
{
    match layout {
        Some(layout) => layout.size as usize <= payload.len(),
        None => true,
    }
}

/// What a body sees of a moment, whose payload has so many bytes.
pub fn context_of(moment: Moment, payload_len: u32) -> Context
    ensures { result.payload_len ≡ payload_len }
{
    Context {
        time: moment.time,
        start: 0,
        pid: 1,
        tid: moment.tid,
        uid: 0,
        gid: 0,
        cpu: moment.actor,
        comm: Str64::of(b"p"),
        payload_len,
    }
}
