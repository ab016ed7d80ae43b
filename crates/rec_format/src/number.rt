// Numbers and pieces of 16 bits at the front of the bytes.
ghost use Rattle.std.specs.Prelude.{◌≡◌};
ghost use Rattle.std.specs.Int.{w16};
ghost use Rattle.std.specs.Option.{option_map};
ghost use Rattle.recordings.specs.Fronts.{number_at, sized_at};

use byteorder::{ByteOrder, LittleEndian};
use recordings::number::bytes_at;

pub(crate) fn u16_at(bytes: &[u8]) -> Option<(u16, &[u8])>
    ensures { option_map (λ field. (field.0, field.1.now)) result ≡ number_at w16 bytes.now }
{
    if bytes.len() < 2 {
        return None;
    }
    Some((LittleEndian::read_u16(bytes), &bytes[2..]))
}

/// Bytes behind their length of 16 bits, and those after them.
#[tactic(auto, unfolding(recordings::specs::Fronts::sized_at))]
pub(crate) fn sized16_at(bytes: &[u8]) -> Option<(&[u8], &[u8])>
    ensures { option_map (λ piece. (piece.0.now, piece.1.now)) result ≡ sized_at w16 bytes.now }
{
    let Some((len, bytes)) = u16_at(bytes) else {
        return None;
    };
    bytes_at(bytes, len as usize)
}
