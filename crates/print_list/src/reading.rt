// Values, read from bytes.
ghost use Rattle.std.specs.Prelude.{◌≡◌, take, drop, IfOk};
ghost use Rattle.print_list.specs.Codes.{number_in, value_in, after_value, values_in};

use bt_core::memory::Memory;
use bt_core::text::Str64;
use bt_core::value::Value;
use byteorder::{ByteOrder, LittleEndian};
use std::alloc::Global;

/// Bytes of a number.
const NUMBER_BYTES: usize = 8;

/// So many bytes, or all where there are fewer, and those after them.
pub(crate) fn cut(bytes: &[u8], count: usize) -> (&[u8], &[u8])
    ensures front { result.0.now ≡ take count bytes.now }
    ensures back { result.1.now ≡ drop count bytes.now }
{
    bytes.split_at(count.min(bytes.len()))
}

/// The number in the first eight bytes, or 0 where there are fewer.
fn number_in(bytes: &[u8]) -> i64
    ensures { result ≡ number_in bytes.now }
{
    if bytes.len() < NUMBER_BYTES {
        return 0;
    }
    LittleEndian::read_u64(&bytes[..NUMBER_BYTES]).cast_signed()
}

/// The value at the front of bytes, and the bytes after it.
fn value_at(bytes: &[u8]) -> (Value, &[u8])
    ensures value { result.0 ≡ value_in bytes.now }
    ensures after { result.1.now ≡ after_value bytes.now }
{
    let Some((kind, rest)) = bytes.split_first() else {
        return (Value::Int(0), bytes);
    };
    if *kind == 0 {
        let (number, after) = cut(rest, NUMBER_BYTES);
        (Value::Int(number_in(number)), after)
    } else {
        let (text, after) = cut(rest, *kind as usize - 1);
        (Value::Str(Str64::of(text)), after)
    }
}

/// So many values, one behind the other at the front of bytes.
pub(crate) fn values_in(alloc: Global, bytes: &[u8], count: u32) -> Result<Vec<Value>, Memory>
    ensures { IfOk result (λ values. values.items ≡ values_in count bytes.now) }
{
    let mut values = Vec::with_capacity(alloc, count as usize)?;
    let mut rest = bytes;
    for _ in 0..count {
        let (value, after) = value_at(rest);
        values.push(value)?;
        rest = after;
    }
    Ok(values)
}
