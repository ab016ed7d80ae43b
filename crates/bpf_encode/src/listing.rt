// Listings.
ghost use Rattle.std.specs.Prelude.{◌≡◌, ◌<◌, ◌≤◌, ◌+◌, ◌*◌, ◌%◌, ◌++◌, ◌∷◌, [], length, IfOk, OnOk};
ghost use Rattle.bt_core.specs.declared.limits.TheConstants.{CODE_SLOTS};
ghost use Rattle.bpf_encode.specs.Listing.{four_digits, hex_byte, line, listing_of, spaced};

use bt_core::memory::Memory;
use hex::encode_to_slice;
use std::alloc::Global;

/// A line for each slot: its number, counted from 0, in four decimal digits, a colon and a blank, and
/// its eight bytes in lower-case hexadecimal, joined by blanks. The bytes are whole slots, at most
/// [`bt_core::limits::CODE_SLOTS`] of them.
///
/// [`Memory`] where there is no room for the lines.
pub fn listing(alloc: Global, bytes: &[u8]) -> Result<Vec<u8>, Memory>
    requires whole { length bytes.now % 8 ≡ 0 }
    requires short { length bytes.now ≤ 8 * CODE_SLOTS }
    ensures { IfOk result (λ text. text.items ≡ listing_of bytes.now) }
{
    let mut text = Vec::new(alloc);
    let slots = bytes.len() / 8;
    for number in 0..slots {
        let slot = &bytes[8 * number..8 * number + 8];
        push_line(&mut text, number, slot)?;
    }
    Ok(text)
}

fn push_line(text: &mut Vec<u8>, number: usize, slot: &[u8]) -> Result<(), Memory>
    requires { length slot.now ≡ 8 }
    ensures { OnOk result (text.new.items ≡ text.old.items ++ line number slot.now) }
{
    text.extend_from_slice(&four_digits(number))?;
    text.push(b':')?;
    push_bytes(text, slot)?;
    text.push(b'\n')?;
    Ok(())
}

// Bytes with a blank before each.
fn push_bytes(text: &mut Vec<u8>, bytes: &[u8]) -> Result<(), Memory>
    ensures { OnOk result (text.new.items ≡ text.old.items ++ spaced bytes.now) }
{
    for byte in bytes {
        text.push(b' ')?;
        text.extend_from_slice(&hex_byte(*byte))?;
    }
    Ok(())
}

// The four last decimal digits of a number.
fn four_digits(number: usize) -> [u8; 4]
    ensures { result ≡ four_digits number }
{
    [
        digit(number / 1000 % 10),
        digit(number / 100 % 10),
        digit(number / 10 % 10),
        digit(number % 10),
    ]
}

fn digit(number: usize) -> u8
    requires { number < 10 }
    ensures { result ≡ 48 + number }
{
    b'0' + number as u8
}

// A byte in two hexadecimal digits.
fn hex_byte(byte: u8) -> [u8; 2]
    ensures { result ≡ hex_byte byte }
{
    let mut digits = [0; 2];
    let _written = encode_to_slice([byte], &mut digits);
    digits
}
