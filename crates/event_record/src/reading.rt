// Reading the fields of a payload.
ghost use Rattle.std.specs.Prelude.{◌≡◌, ◌≤◌, ◌⊎◌, length, IsTrue};
ghost use Rattle.std.specs.Int.{w32, w64, from_le_bytes, cast_signed};
ghost use Rattle.event_layout.specs.Kinds.{is_number_size};
ghost use Rattle.event_layout.specs.Sizes.{end_of};
ghost use Rattle.event_record.specs.Fields.{field_bytes, width_of, field_number, field_text, located};

use bt_core::text::Str64;
use byteorder::{ByteOrder, LittleEndian};
use event_layout::field::{Field, FieldKind};

/// The number of a field: of its bytes the first is the lowest, and they are read in two's complement
/// where the field is signed. An unsigned number of 8 bytes from 2^63 on is read as the negative
/// number of the same bits.
pub fn int_field(field: &Field, payload: &[u8]) -> i64
    requires number { field.now.kind ≡ FieldKind.Number }
    requires inside { end_of field.now ≤ length payload.now }
    ensures { result ≡ field_number field.now payload.now }
{
    let bytes = bytes_of(field, payload);
    if field.signed {
        signed_number(bytes)
    } else {
        unsigned_number(bytes)
    }
}

/// The string of a field: of the first 63 bytes of an array of characters, or of those that a data
/// location says, the ones before the first zero byte. A data location that points outside the
/// payload reads as the empty string.
pub fn str_field(field: &Field, payload: &[u8]) -> Str64
    requires text { field.now.kind ≡ FieldKind.Chars ⊎ field.now.kind ≡ FieldKind.DataLoc }
    requires inside { end_of field.now ≤ length payload.now }
    ensures { result ≡ field_text field.now payload.now }
{
    let bytes = bytes_of(field, payload);
    match field.kind {
        FieldKind::DataLoc => Str64::of(located(bytes, payload)),
        _ => Str64::of(bytes),
    }
}

/// The bytes of a field.
fn bytes_of<'a>(field: &Field, payload: &'a [u8]) -> &'a [u8]
    requires { end_of field.now ≤ length payload.now }
    ensures bytes { result.now ≡ field_bytes field.now payload.now }
    ensures size { length result.now ≡ field.now.size }
{
    let start = field.offset as usize;
    &payload[start..start + field.size as usize]
}

/// The signed number of 1, 2, 4 or 8 bytes.
fn signed_number(bytes: &[u8]) -> i64
    requires { IsTrue (is_number_size (length bytes.now)) }
    ensures { result ≡ cast_signed (width_of (length bytes.now)) (from_le_bytes (width_of (length bytes.now)) bytes.now) }
{
    match bytes.len() {
        1 => i64::from(bytes[0].cast_signed()),
        2 => i64::from(LittleEndian::read_i16(bytes)),
        4 => i64::from(LittleEndian::read_i32(bytes)),
        _ => LittleEndian::read_i64(bytes),
    }
}

/// The unsigned number of 1, 2, 4 or 8 bytes, as the signed number of the same 64 bits.
fn unsigned_number(bytes: &[u8]) -> i64
    requires { IsTrue (is_number_size (length bytes.now)) }
    ensures { result ≡ cast_signed w64 (from_le_bytes (width_of (length bytes.now)) bytes.now) }
{
    match bytes.len() {
        1 => i64::from(bytes[0]),
        2 => i64::from(LittleEndian::read_u16(bytes)),
        4 => i64::from(LittleEndian::read_u32(bytes)),
        _ => LittleEndian::read_i64(bytes),
    }
}

/// The bytes that a data location says: its low 16 bits are their place in the payload, its high 16
/// bits how many they are. Where they are not all inside the payload there are none.
fn located<'a>(word: &[u8], payload: &'a [u8]) -> &'a [u8]
    requires { length word.now ≡ 4 }
    ensures { result.now ≡ located (from_le_bytes w32 word.now) payload.now }
{
    let word = LittleEndian::read_u32(word);
    let place = (word % 65_536) as usize;
    let count = (word / 65_536) as usize;
    if place + count > payload.len() {
        return &[];
    }
    &payload[place..place + count]
}
