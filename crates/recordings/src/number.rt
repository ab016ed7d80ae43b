// Numbers and pieces at the front of the bytes.
ghost use Rattle.std.specs.Prelude.{◌≡◌};
ghost use Rattle.std.specs.Int.{w32, w64};
ghost use Rattle.std.specs.Option.{option_map};
ghost use Rattle.recordings.specs.Fronts.{bytes_at, number_at, sized_at};

use byteorder::{ByteOrder, LittleEndian};

/// So many bytes and those after them.
pub fn bytes_at(bytes: &[u8], count: usize) -> Option<(&[u8], &[u8])>
    ensures { option_map (λ piece. (piece.0.now, piece.1.now)) result ≡ bytes_at count bytes.now }
{
    if count <= bytes.len() {
        Some(bytes.split_at(count))
    } else {
        None
    }
}

/// A number of 32 bits, and the bytes after it.
#[inline(always)]
pub fn u32_at(bytes: &[u8]) -> Option<(u32, &[u8])>
    ensures { option_map (λ field. (field.0, field.1.now)) result ≡ number_at w32 bytes.now }
{
    if bytes.len() < 4 {
        return None;
    }
    Some((LittleEndian::read_u32(bytes), &bytes[4..]))
}

/// A number of 64 bits, and the bytes after it.
#[inline(always)]
pub fn u64_at(bytes: &[u8]) -> Option<(u64, &[u8])>
    ensures { option_map (λ field. (field.0, field.1.now)) result ≡ number_at w64 bytes.now }
{
    if bytes.len() < 8 {
        return None;
    }
    Some((LittleEndian::read_u64(bytes), &bytes[8..]))
}

/// Bytes behind their length of 32 bits, and those after them.
#[tactic(auto, unfolding(crate::specs::Fronts::sized_at))]
#[inline(always)]
pub fn sized32_at(bytes: &[u8]) -> Option<(&[u8], &[u8])>
    ensures { option_map (λ piece. (piece.0.now, piece.1.now)) result ≡ sized_at w32 bytes.now }
{
    let Some((len, bytes)) = u32_at(bytes) else {
        return None;
    };
    bytes_at(bytes, len as usize)
}
