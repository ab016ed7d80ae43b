// Values and keys at the front of the bytes.
ghost use Rattle.std.specs.Prelude.{◌≡◌, IfOk};
ghost use Rattle.std.specs.Option.{option_map};
ghost use Rattle.bt_core.specs.declared.value.Value.TheVariants.{Str};
ghost use Rattle.bt_core.specs.KeyBytes.{value_bytes};
ghost use Rattle.account_format.specs.Reading.{text_at, value_at, key_at};

use crate::number::{bytes_at, u64_at};
use bt_core::key::Key;
use bt_core::limits::KEY_PARTS;
use bt_core::map::Shape;
use bt_core::memory::Memory;
use bt_core::text::Str64;
use bt_core::value::Value;
use std::alloc::Global;

/// Bytes of a string.
pub(crate) const TEXT_BYTES: usize = 64;

/// The bytes of a string, with zeros behind it.
pub(crate) fn text_bytes(text: &Str64) -> [u8; TEXT_BYTES]
    ensures { result ≡ value_bytes (Str text.now) }
{
    let text = text.bytes();
    let mut bytes = [0; TEXT_BYTES];
    bytes[..text.len()].copy_from_slice(text);
    bytes
}

/// A string in 64 bytes that spell it, and the bytes after them.
fn text_at(bytes: &[u8]) -> Option<(Str64, &[u8])>
    ensures { option_map (λ text. (text.0, text.1.now)) result ≡ text_at bytes.now }
{
    let Some((front, rest)) = bytes_at(bytes, TEXT_BYTES) else {
        return None;
    };
    let text = Str64::of(front);
    let spelled = text_bytes(&text);
    if spelled.as_slice() == front {
        Some((text, rest))
    } else {
        None
    }
}

/// A value of this shape, and the bytes after it.
pub(crate) fn value_at(shape: Shape, bytes: &[u8]) -> Option<(Value, &[u8])>
    ensures { option_map (λ value. (value.0, value.1.now)) result ≡ value_at shape bytes.now }
{
    match shape {
        Shape::Int => {
            let Some((number, rest)) = u64_at(bytes) else {
                return None;
            };
            Some((Value::Int(number.cast_signed()), rest))
        }
        Shape::Str => {
            let Some((text, rest)) = text_at(bytes) else {
                return None;
            };
            Some((Value::Str(text), rest))
        }
    }
}

/// A key of these shapes, and the bytes after it. [`Memory`] where there is no room for the key.
#[tactic(auto, unfolding(crate::specs::Reading::key_at))]
pub(crate) fn key_at<'b>(
    alloc: Global,
    shapes: &[Shape],
    bytes: &'b [u8],
) -> Result<Option<(Key, &'b [u8])>, Memory>
    ensures { IfOk result (λ read. option_map (λ key. (key.0, key.1.now)) read ≡ key_at shapes.now bytes.now) }
{
    if shapes.len() > KEY_PARTS {
        return Ok(None);
    }
    let mut parts = Vec::new(alloc);
    let mut rest = bytes;
    for shape in shapes {
        let Some((value, after)) = value_at(*shape, rest) else {
            return Ok(None);
        };
        parts.push(value)?;
        rest = after;
    }
    Ok(Some((Key::of(parts), rest)))
}
