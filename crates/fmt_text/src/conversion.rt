// What stands at the front of a format: a byte or a conversion.
ghost use Rattle.std.specs.Prelude.{◌≡◌};
ghost use Rattle.std.specs.Option.{option_map};
ghost use Rattle.fmt_text.specs.Formats.{is_letter, is_text_letter};
ghost use Rattle.fmt_text.specs.Reading.{after_flag, flags_at, width_after, width_at, after_size, letter_at, conversion_at, front_of, behind_percent};

use bt_core::bytes::is_digit;

/// A conversion: whether it has the flags `-` and `0`, its width, or 0 for none, and its letter.
#[derive(Clone, Copy)]
pub(crate) struct Converted {
    pub left: bool,
    pub zero: bool,
    pub width: u32,
    pub letter: u8,
}

/// A byte that stands for itself, or a conversion.
#[derive(Clone, Copy)]
pub(crate) enum Front {
    Byte(u8),
    Conversion(Converted),
}

/// The flags of a conversion, and the bytes behind them.
#[derive(Clone, Copy)]
struct Flags<'a> {
    left: bool,
    zero: bool,
    rest: &'a [u8],
}

/// Whether a byte stands at the front, and the bytes behind it.
fn after_flag(bytes: &[u8], flag: u8) -> (bool, &[u8])
    ensures { (result.0, result.1.now) ≡ after_flag flag bytes.now }
{
    match bytes {
        [first, rest @ ..] if *first == flag => (true, rest),
        _ => (false, bytes),
    }
}

/// The flags at the front: `-` and `0`, each at most once, in any order.
fn flags_at(bytes: &[u8]) -> Flags<'_>
    ensures { record { left = result.left; zero = result.zero; rest = result.rest.now } ≡ flags_at bytes.now }
{
    let (left, rest) = after_flag(bytes, b'-');
    let (zero, rest) = after_flag(rest, b'0');
    if left {
        return Flags { left, zero, rest };
    }
    let (left, rest) = after_flag(rest, b'-');
    Flags { left, zero, rest }
}

/// The number that the digits at the front write, 0 where there are none, and the bytes behind them.
fn digits_at(bytes: &[u8]) -> Option<(u32, &[u8])>
    ensures { option_map (λ width. (width.0, width.1.now)) result ≡ width_after 0 bytes.now }
{
    let mut width = 0;
    let mut rest = bytes;
    while let [first, others @ ..] = rest {
        if !is_digit(*first) {
            return Some((width, rest));
        }
        width = width * 10 + u32::from(*first - b'0');
        if width > 255 {
            return None;
        }
        rest = others;
    }
    Some((width, rest))
}

/// The width at the front, 0 where there is none, and the bytes behind it. A width that begins with
/// `0` or is above 255 is refused.
fn width_at(bytes: &[u8]) -> Option<(u32, &[u8])>
    ensures { option_map (λ width. (width.0, width.1.now)) result ≡ width_at bytes.now }
{
    let (zero, _) = after_flag(bytes, b'0');
    if zero { None } else { digits_at(bytes) }
}

/// The bytes behind a length word, which may be missing.
fn after_size(bytes: &[u8]) -> &[u8]
    ensures { result.now ≡ after_size bytes.now }
{
    match bytes {
        [first, rest @ ..] if *first == b'h' || *first == b'l' => after_flag(rest, *first).1,
        _ => bytes,
    }
}

fn is_letter(byte: u8) -> bool
    ensures { result ≡ is_letter byte }
{
    matches!(byte, b'd' | b'i' | b'u' | b'x' | b'X' | b's' | b'c')
}

/// Whether a letter is that of a text, which is not filled with zeros.
pub(crate) fn is_text_letter(byte: u8) -> bool
    ensures { result ≡ is_text_letter byte }
{
    matches!(byte, b's' | b'c')
}

/// The conversion that ends in the letter at the front, and the bytes behind it.
fn letter_at(left: bool, zero: bool, width: u32, bytes: &[u8]) -> Option<(Converted, &[u8])>
    ensures { option_map (λ found. (found.0, found.1.now)) result ≡ letter_at left zero width bytes.now }
{
    match bytes {
        [letter, rest @ ..] if is_letter(*letter) && !(zero && is_text_letter(*letter)) => {
            let letter = *letter;
            Some((
                Converted {
                    left,
                    zero,
                    width,
                    letter,
                },
                rest,
            ))
        }
        _ => None,
    }
}

/// The conversion whose `%` stands before the bytes, and the bytes behind it.
#[tactic(auto, unfolding(crate::specs::Reading::conversion_at))]
fn conversion_at(bytes: &[u8]) -> Option<(Converted, &[u8])>
    ensures { option_map (λ found. (found.0, found.1.now)) result ≡ conversion_at bytes.now }
{
    let flags = flags_at(bytes);
    let (width, rest) = width_at(flags.rest)?;
    letter_at(flags.left, flags.zero, width, after_size(rest))
}

/// What stands behind a `%`, and the bytes behind it.
fn behind_percent(bytes: &[u8]) -> Option<(Front, &[u8])>
    ensures { option_map (λ found. (found.0, found.1.now)) result ≡ behind_percent bytes.now }
{
    match bytes {
        [] => None,
        [b'%', rest @ ..] => Some((Front::Byte(b'%'), rest)),
        [_, ..] => match conversion_at(bytes) {
            Some((conversion, rest)) => Some((Front::Conversion(conversion), rest)),
            None => None,
        },
    }
}

/// What stands at the front, and the bytes behind it, or `None` at the end and at a `%` that begins
/// neither a conversion nor `%%`.
pub(crate) fn front_of(bytes: &[u8]) -> Option<(Front, &[u8])>
    ensures { option_map (λ found. (found.0, found.1.now)) result ≡ front_of bytes.now }
{
    match bytes {
        [] => None,
        [b'%', rest @ ..] => behind_percent(rest),
        [byte, rest @ ..] => Some((Front::Byte(*byte), rest)),
    }
}
