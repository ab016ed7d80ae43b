// Writing numbers, values and keys behind bytes.
ghost use Rattle.std.specs.Prelude.{◌≡◌, ◌++◌, ◌∷◌, [], OnOk};
ghost use Rattle.std.specs.Int.{w32, w64, cast_unsigned, to_le_bytes};
ghost use Rattle.bt_core.specs.KeyBytes.{value_bytes, key_bytes};
ghost use Rattle.account_format.specs.Entries.{of_map};

use crate::value::text_bytes;
use bt_core::key::Key;
use bt_core::map::MapId;
use bt_core::value::Value;
use byteorder::{ByteOrder, LittleEndian};
use std::alloc::AllocError;

pub(crate) fn push_byte(bytes: &mut Vec<u8>, byte: u8) -> Result<(), AllocError>
    ensures { OnOk result (bytes.new.items ≡ bytes.old.items ++ byte ∷ []) }
{
    bytes.push(byte)?;
    Ok(())
}

pub(crate) fn push_u32(bytes: &mut Vec<u8>, number: u32) -> Result<(), AllocError>
    ensures { OnOk result (bytes.new.items ≡ bytes.old.items ++ to_le_bytes w32 number) }
{
    let mut piece = [0; 4];
    LittleEndian::write_u32(&mut piece, number);
    bytes.extend_from_slice(&piece)
}

pub(crate) fn push_u64(bytes: &mut Vec<u8>, number: u64) -> Result<(), AllocError>
    ensures { OnOk result (bytes.new.items ≡ bytes.old.items ++ to_le_bytes w64 number) }
{
    let mut piece = [0; 8];
    LittleEndian::write_u64(&mut piece, number);
    bytes.extend_from_slice(&piece)
}

/// A number with a sign, as the one without it that has its bits.
pub(crate) fn push_i64(bytes: &mut Vec<u8>, number: i64) -> Result<(), AllocError>
    ensures { OnOk result (bytes.new.items ≡ bytes.old.items ++ to_le_bytes w64 (cast_unsigned w64 number)) }
{
    push_u64(bytes, number.cast_unsigned())
}

pub(crate) fn push_value(bytes: &mut Vec<u8>, value: &Value) -> Result<(), AllocError>
    ensures { OnOk result (bytes.new.items ≡ bytes.old.items ++ value_bytes value.now) }
{
    match value {
        Value::Int(number) => push_i64(bytes, *number),
        Value::Str(text) => bytes.extend_from_slice(&text_bytes(text)),
    }
}

fn push_key(bytes: &mut Vec<u8>, key: &Key) -> Result<(), AllocError>
    ensures { OnOk result (bytes.new.items ≡ bytes.old.items ++ key_bytes key.now) }
{
    for part in key.parts() {
        push_value(bytes, part)?;
    }
    Ok(())
}

/// A kind and a map.
fn push_map(bytes: &mut Vec<u8>, kind: u8, map: MapId) -> Result<(), AllocError>
    ensures { OnOk result (bytes.new.items ≡ bytes.old.items ++ of_map kind map) }
{
    bytes.push(kind)?;
    push_u32(bytes, map.0)
}

/// A kind, a map and a key of it.
pub(crate) fn push_keyed(
    bytes: &mut Vec<u8>,
    kind: u8,
    map: MapId,
    key: &Key,
) -> Result<(), AllocError>
    ensures { OnOk result (bytes.new.items ≡ bytes.old.items ++ (of_map kind map ++ key_bytes key.now)) }
{
    push_map(bytes, kind, map)?;
    push_key(bytes, key)
}

/// A kind, a map and the number of a part or of a table.
pub(crate) fn push_numbered(
    bytes: &mut Vec<u8>,
    kind: u8,
    map: MapId,
    number: u32,
) -> Result<(), AllocError>
    ensures { OnOk result (bytes.new.items ≡ bytes.old.items ++ (of_map kind map ++ to_le_bytes w32 number)) }
{
    push_map(bytes, kind, map)?;
    push_u32(bytes, number)
}
