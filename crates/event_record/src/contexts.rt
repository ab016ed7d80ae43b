// The bytes of contexts, as code reads them.
ghost use Rattle.std.specs.Prelude.{◌≡◌, ◌<◌, ◌≤◌, ◌+◌, ◌-◌, ◌%◌, ◌^◌, ◌++◌, length, drop, replicate};
ghost use Rattle.std.specs.Int.{w64, to_le_bytes};
ghost use Rattle.std.specs.List.{flat_map, take_while};
ghost use Rattle.bt_core.specs.Text.{IsShortText, is_text_byte, short_text};
ghost use Rattle.byteorder.specs.Endian.{little_number};
ghost use Rattle.event_record.specs.Contexts.{FitsNumbers, context_bytes, context_numbers, with_number};
ghost use Rattle.event_record.specs.Parts.{context_of};

use bt_core::context::Context;
use bt_core::limits::STRING_BYTES;
use bt_core::text::Str64;
use byteorder::{ByteOrder, LittleEndian};
use std::marker::Model;

/// Bytes of a context.
pub const CONTEXT_BYTES: usize = 128;

/// Bytes of its numbers, and the place of the command's name behind them.
const NUMBER_BYTES: usize = 64;

/// The numbers of a context in the order of their bytes: its time, its time less its start modulo 2^64, pid, tid, uid,
/// gid, the CPU's number and the payload's length.
pub fn context_numbers(context: &Context) -> [u64; 8]
    ensures { result ≡ context_numbers context.now }
{
    [
        context.time,
        context.time.wrapping_sub(context.start),
        u64::from(context.pid),
        u64::from(context.tid),
        u64::from(context.uid),
        u64::from(context.gid),
        u64::from(context.cpu),
        u64::from(context.payload_len),
    ]
}

/// What the bytes of a context are written of. Times are in nanoseconds. Of the first 63 bytes of `comm` those before the
/// first zero byte are the command's name.
#[derive(Clone, Copy)]
pub struct ContextParts<'a> {
    /// The time of the event, tick or moment.
    pub time: u64,
    /// The recording's start.
    pub start: u64,
    /// The process of the thread that ran.
    pub pid: u32,
    /// The thread that ran.
    pub tid: u32,
    /// The user of the process.
    pub uid: u32,
    /// The group of the process.
    pub gid: u32,
    /// The recorded CPU's number.
    pub cpu: u32,
    /// The command's name.
    pub comm: &'a [u8],
    /// Bytes of the payload.
    pub payload_len: u32,
}

/// A context as code reads it: its numbers in eight bytes each, the lowest first, and from byte 64 on the command's name,
/// with zeros behind it.
///
/// Contracts see the context that the bytes spell.
#[derive(Drop)]
pub struct ContextBytes {
    bytes: [u8; CONTEXT_BYTES],
}

impl Model for ContextBytes {
    ghost use Rattle.std.specs.Prelude.{◌≡◌};
    ghost use Rattle.bt_core.specs.declared.context.Context.{Context};
    ghost use Rattle.event_record.specs.Contexts.{context_bytes, context_in};

    ghost Value = { Context };

    ghost view = { λ s. context_in s.bytes };

    ghost invariant = { λ s. s.bytes ≡ context_bytes (context_in s.bytes) };
}

impl ContextBytes {
    /// The context of these parts. It takes no memory.
    pub fn of(parts: &ContextParts<'_>) -> ContextBytes
        ensures { result ≡ context_of parts.now }
    {
        let mut bytes = [0; CONTEXT_BYTES];
        put_numbers(&mut bytes, parts);
        let name = name_in(parts.comm);
        bytes[NUMBER_BYTES..NUMBER_BYTES + name.len()].copy_from_slice(name);
        ContextBytes { bytes }
    }

    /// Its bytes.
    pub fn bytes(&self) -> &[u8; CONTEXT_BYTES]
        ensures { result.now ≡ context_bytes self.now }
    {
        &self.bytes
    }

    /// The context, field by field. It takes no memory.
    pub fn context(&self) -> Context
        ensures { result ≡ self.now }
    {
        let time = word_at(&self.bytes, 0);
        Context {
            time,
            start: time.wrapping_sub(word_at(&self.bytes, 8)),
            pid: half_at(&self.bytes, 16),
            tid: half_at(&self.bytes, 24),
            uid: half_at(&self.bytes, 32),
            gid: half_at(&self.bytes, 40),
            cpu: half_at(&self.bytes, 48),
            comm: Str64::of(&self.bytes[NUMBER_BYTES..]),
            payload_len: half_at(&self.bytes, 56),
        }
    }

    /// Bytes of the payload.
    pub fn payload_len(&self) -> u32
        ensures { result ≡ self.now.payload_len }
    {
        half_at(&self.bytes, 56)
    }
}

/// The number of the eight bytes from a place on, the lowest first.
fn word_at(bytes: &[u8; CONTEXT_BYTES], place: usize) -> u64
    requires { place + 8 ≤ CONTEXT_BYTES }
    ensures { result ≡ little_number 8 (drop place bytes.now) }
{
    LittleEndian::read_u64(&bytes[place..])
}

/// The number of the four bytes from a place on, the lowest first.
fn half_at(bytes: &[u8; CONTEXT_BYTES], place: usize) -> u32
    requires { place + 4 ≤ CONTEXT_BYTES }
    ensures { result ≡ little_number 4 (drop place bytes.now) }
{
    LittleEndian::read_u32(&bytes[place..])
}

/// Writes a number to the eight bytes from a place on, the lowest first.
fn put_word(bytes: &mut [u8; CONTEXT_BYTES], place: usize, number: u64)
    requires { place + 8 ≤ CONTEXT_BYTES }
    ensures put { bytes.new ≡ with_number place number bytes.old }
    ensures fits { number < 2 ^ 64 }
{
    bytes[place..place + 8].copy_from_slice(&number.to_le_bytes());
}

/// Writes a number of 32 bits to the eight bytes from a place on, the lowest first.
fn put_half(bytes: &mut [u8; CONTEXT_BYTES], place: usize, number: u32)
    requires { place + 8 ≤ CONTEXT_BYTES }
    ensures put { bytes.new ≡ with_number place number bytes.old }
    ensures fits { number < 2 ^ 32 }
{
    put_word(bytes, place, u64::from(number));
}

/// A time less the start, modulo 2^64.
fn elapsed(time: u64, start: u64) -> u64
    ensures value { result ≡ (time + 2 ^ 64 - start) % 2 ^ 64 }
    ensures fits { start < 2 ^ 64 }
{
    time.wrapping_sub(start)
}

/// Writes the numbers of a context to their bytes, which are zeros before.
fn put_numbers(bytes: &mut [u8; CONTEXT_BYTES], parts: &ContextParts<'_>)
    requires zeros { bytes.old ≡ replicate CONTEXT_BYTES 0 }
    ensures numbers { bytes.new ≡ flat_map (to_le_bytes w64) (context_numbers (context_of parts.now)) ++ replicate (CONTEXT_BYTES - NUMBER_BYTES) 0 }
    ensures fits { FitsNumbers (context_of parts.now) }
{
    put_word(bytes, 0, parts.time);
    put_word(bytes, 8, elapsed(parts.time, parts.start));
    put_half(bytes, 16, parts.pid);
    put_half(bytes, 24, parts.tid);
    put_half(bytes, 32, parts.uid);
    put_half(bytes, 40, parts.gid);
    put_half(bytes, 48, parts.cpu);
    put_half(bytes, 56, parts.payload_len);
}

/// The name in these bytes: of the first 63 those before the first zero byte.
fn name_in(comm: &[u8]) -> &[u8]
    ensures value { result.now ≡ short_text comm.now }
    ensures short { IsShortText (short_text comm.now) }
{
    let len = text_len(&comm[..comm.len().min(STRING_BYTES)]);
    &comm[..len]
}

/// How many bytes stand before the first zero byte, or before the end where there is none.
fn text_len(bytes: &[u8]) -> usize
    ensures { result ≡ length (take_while is_text_byte bytes.now) }
{
    bytes.iter().take_while(|b| **b != 0).count()
}
