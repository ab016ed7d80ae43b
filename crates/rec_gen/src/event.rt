// One made event.
ghost use Rattle.std.specs.Prelude.{◌≡◌, ◌<◌, ◌+◌, ◌*◌, ◌%◌, IfOk};
ghost use Rattle.rec_gen.specs.Made.{name_of, payload_of};

use crate::draws::Drawn;
use bt_core::items::Items;
use bt_core::memory::Memory;
use byteorder::{ByteOrder, LittleEndian};
use recordings::recording::Event;
use std::alloc::Global;

/// The name of a thread, with zero bytes behind it.
fn name_of(which: u32) -> [u8; 16]
    ensures { result ≡ name_of which }
{
    match which {
        0 => *b"bash\0\0\0\0\0\0\0\0\0\0\0\0",
        1 => *b"sshd\0\0\0\0\0\0\0\0\0\0\0\0",
        2 => *b"cron\0\0\0\0\0\0\0\0\0\0\0\0",
        _ => *b"make\0\0\0\0\0\0\0\0\0\0\0\0",
    }
}

/// The record of a call by this number, by this thread.
fn payload_of(alloc: Global, thread: u32, id: u32) -> Result<Items<u8>, Memory>
    ensures { IfOk result (λ payload. payload ≡ payload_of thread id) }
{
    let mut number = [0; 4];
    LittleEndian::write_u32(&mut number, thread);
    let mut call = [0; 8];
    LittleEndian::write_u64(&mut call, id as u64);
    let mut bytes = Vec::with_capacity(alloc, 64)?;
    bytes.extend_from_slice(&[21, 0, 0, 0])?;
    bytes.extend_from_slice(&number)?;
    bytes.extend_from_slice(&call)?;
    bytes.extend_from_slice(&[0; 48])?;
    Ok(Items::of(bytes))
}

/// The event at a place, of one every microsecond.
pub fn event_of(alloc: Global, place: u32, drawn: &Drawn) -> Result<Event, Memory>
    ensures { IfOk result (λ e. e ≡ record {
      time = 1000 * (place + 1);
      pid = 1000 + drawn.now.thread % 8;
      tid = 1000 + drawn.now.thread % 8;
      uid = 0;
      gid = 0;
      comm = name_of (drawn.now.name % 4);
      format = 0;
      payload = payload_of (1000 + drawn.now.thread % 8) (drawn.now.id % 400);
    }) }
{
    let thread = 1000 + drawn.thread % 8;
    Ok(Event {
        time: 1000 * (place as u64 + 1),
        pid: thread,
        tid: thread,
        uid: 0,
        gid: 0,
        comm: name_of(drawn.name % 4),
        format: 0,
        payload: payload_of(alloc, thread, drawn.id % 400)?,
    })
}
