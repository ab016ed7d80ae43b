// What bodies see of the event, tick or moment that they run at.
ghost use Rattle.std.specs.Prelude.{◌≡◌, ◌<◌, ◌^◌, length};
ghost use Rattle.recordings.specs.InFile.{event_seen};
ghost use Rattle.actor_plan.specs.Contexts.{event_context, moment_context, tick_context, begin_context, end_context};

use bt_ast::attached::Tick;
use event_record::contexts::{ContextBytes, ContextParts};
use recordings::entries::EventRef;
use recordings::recording::{CpuTrack, Recording};

/// What a body sees of an event of a CPU: the event's values, and the CPU's number. The name of the thread ends before its
/// first zero byte.
pub fn context_of_event(
    recording: &Recording,
    track: &CpuTrack,
    event: &EventRef<'_>,
) -> ContextBytes
    requires { length event.now.payload.now < 2 ^ 32 }
    ensures { result ≡ event_context recording.now track.now (event_seen event.now) }
{
    ContextBytes::of(&ContextParts {
        time: event.time,
        start: recording.start,
        pid: event.pid,
        tid: event.tid,
        uid: event.uid,
        gid: event.gid,
        cpu: track.number,
        comm: &event.comm,
        payload_len: event.payload.len() as u32,
    })
}

/// What a body sees at a time on a CPU of this number, where there is no event: 0 and the empty string beside them.
fn context_of_moment(recording: &Recording, number: u32, time: u64) -> ContextBytes
    ensures { result ≡ moment_context recording.now number time }
{
    ContextBytes::of(&ContextParts {
        time,
        start: recording.start,
        pid: 0,
        tid: 0,
        uid: 0,
        gid: 0,
        cpu: number,
        comm: &[],
        payload_len: 0,
    })
}

/// What a tick's body sees on the CPU that runs it: the tick's time and the CPU's number, and 0 and the empty string for the
/// rest.
pub fn context_of_tick(recording: &Recording, track: &CpuTrack, tick: &Tick) -> ContextBytes
    ensures { result ≡ tick_context recording.now track.now tick.now }
{
    context_of_moment(recording, track.number, tick.time)
}

/// What `BEGIN` sees: the recording's start as the time, CPU 0, and 0 and the empty string for the rest.
pub fn context_of_begin(recording: &Recording) -> ContextBytes
    ensures { result ≡ begin_context recording.now }
{
    context_of_moment(recording, 0, recording.start)
}

/// What `END` sees: the recording's end as the time, CPU 0, and 0 and the empty string for the rest.
pub fn context_of_end(recording: &Recording) -> ContextBytes
    ensures { result ≡ end_context recording.now }
{
    context_of_moment(recording, 0, recording.end)
}
