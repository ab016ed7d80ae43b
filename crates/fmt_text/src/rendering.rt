// The text of a printf call.
ghost use Rattle.std.specs.Prelude.{◌≡◌, ◌++◌, ◌∷◌, [], ◌-◌, ◌%◌, pos, List, IfOk, OnOk, length, replicate};
ghost use Rattle.std.specs.Prelude.{decimal, int_lt, unsigned_abs, string_bytes};
ghost use Rattle.std.specs.Fmt.{digits, sign_text};
ghost use Rattle.fmt_text.specs.Arguments.{AreArgumentsOf};
ghost use Rattle.fmt_text.specs.Rendered.{placed, number_shown, value_shown, without_sign, rendered};
ghost use Rattle.fmt_text.specs.declared.piece.Piece.{Piece as PieceValue};

use crate::columns::write_copies;
use crate::conversion::is_text_letter;
use crate::piece::Piece;
use bt_core::memory::Memory;
use bt_core::value::Value;
use itoa::Buffer;
use std::alloc::Global;

/// How a text stands in its width: left, or else with zeros behind its sign, or else right.
#[derive(Clone, Copy)]
struct Placing {
    left: bool,
    zero: bool,
    width: u32,
}

/// How many bytes a sign and a body lack to a width.
fn room(width: u32, sign: &[u8], body: &[u8]) -> usize
    ensures { result ≡ width - length (sign.now ++ body.now) }
{
    (width as usize).saturating_sub(sign.len() + body.len())
}

fn write_left(out: &mut Vec<u8>, sign: &[u8], body: &[u8], room: usize) -> Result<(), Memory>
    ensures { OnOk result (out.new.items ≡ out.old.items ++ ((sign.now ++ body.now) ++ replicate room 32)) }
{
    out.extend_from_slice(sign)?;
    out.extend_from_slice(body)?;
    write_copies(out, b' ', room)
}

fn write_zeros(out: &mut Vec<u8>, sign: &[u8], body: &[u8], room: usize) -> Result<(), Memory>
    ensures { OnOk result (out.new.items ≡ out.old.items ++ (sign.now ++ (replicate room 48 ++ body.now))) }
{
    out.extend_from_slice(sign)?;
    write_copies(out, b'0', room)?;
    out.extend_from_slice(body)?;
    Ok(())
}

fn write_right(out: &mut Vec<u8>, sign: &[u8], body: &[u8], room: usize) -> Result<(), Memory>
    ensures { OnOk result (out.new.items ≡ out.old.items ++ (replicate room 32 ++ (sign.now ++ body.now))) }
{
    write_copies(out, b' ', room)?;
    out.extend_from_slice(sign)?;
    out.extend_from_slice(body)?;
    Ok(())
}

/// Writes a sign and a body in their width.
fn write_placed(out: &mut Vec<u8>, placing: Placing, sign: &[u8], body: &[u8]) -> Result<(), Memory>
    ensures { OnOk result (out.new.items ≡ out.old.items
        ++ placed placing.left placing.zero placing.width (record { sign = sign.now; body = body.now })) }
{
    let room = room(placing.width, sign, body);
    if placing.left {
        write_left(out, sign, body, room)
    } else if placing.zero {
        write_zeros(out, sign, body, room)
    } else {
        write_right(out, sign, body, room)
    }
}

/// Writes a number with its sign.
fn write_signed(out: &mut Vec<u8>, placing: Placing, n: i64) -> Result<(), Memory>
    ensures { OnOk result (out.new.items ≡ out.old.items
        ++ placed placing.left placing.zero placing.width (record { sign = sign_text (int_lt n (pos 0)); body = decimal (unsigned_abs n) })) }
{
    let sign: &[u8] = if n < 0 { b"-" } else { b"" };
    write_placed(
        out,
        placing,
        sign,
        Buffer::new().format(n.unsigned_abs()).as_bytes(),
    )
}

/// Writes the 64 bits of a number in decimal.
fn write_unsigned(out: &mut Vec<u8>, placing: Placing, bits: u64) -> Result<(), Memory>
    ensures { OnOk result (out.new.items ≡ out.old.items ++ placed placing.left placing.zero placing.width (without_sign (decimal bits))) }
{
    write_placed(out, placing, b"", Buffer::new().format(bits).as_bytes())
}

/// The digits of the 64 bits of a number to the base 16.
fn hexadecimal(alloc: Global, bits: u64, upper: bool) -> Result<String, Memory>
    ensures { IfOk result (λ text. string_bytes text ≡ digits 16 upper bits) }
{
    if upper {
        Ok(format!(in alloc; "{bits:X}")?)
    } else {
        Ok(format!(in alloc; "{bits:x}")?)
    }
}

/// Writes the 64 bits of a number in hexadecimal.
fn write_hexadecimal(
    out: &mut Vec<u8>,
    alloc: Global,
    placing: Placing,
    bits: u64,
    upper: bool,
) -> Result<(), Memory>
    ensures { OnOk result (out.new.items ≡ out.old.items ++ placed placing.left placing.zero placing.width (without_sign (digits 16 upper bits))) }
{
    let text = hexadecimal(alloc, bits, upper)?;
    write_placed(out, placing, b"", text.as_bytes())
}

/// Writes the low 8 bits of a number as one byte.
fn write_byte(out: &mut Vec<u8>, placing: Placing, bits: u64) -> Result<(), Memory>
    ensures { OnOk result (out.new.items ≡ out.old.items ++ placed placing.left placing.zero placing.width (without_sign (bits % 256 ∷ []))) }
{
    let byte = (bits % 256) as u8;
    write_placed(out, placing, b"", &[byte])
}

/// Writes a number as the letter says.
fn write_number(
    out: &mut Vec<u8>,
    alloc: Global,
    placing: Placing,
    letter: u8,
    n: i64,
) -> Result<(), Memory>
    ensures { OnOk result (out.new.items ≡ out.old.items ++ placed placing.left placing.zero placing.width (number_shown letter n)) }
{
    match letter {
        b'u' => write_unsigned(out, placing, n.cast_unsigned()),
        b'x' => write_hexadecimal(out, alloc, placing, n.cast_unsigned(), false),
        b'X' => write_hexadecimal(out, alloc, placing, n.cast_unsigned(), true),
        b'c' => write_byte(out, placing, n.cast_unsigned()),
        _ => write_signed(out, placing, n),
    }
}

/// Writes a value as the letter says.
fn write_value(
    out: &mut Vec<u8>,
    alloc: Global,
    placing: Placing,
    letter: u8,
    value: &Value,
) -> Result<(), Memory>
    ensures { OnOk result (out.new.items ≡ out.old.items ++ placed placing.left placing.zero placing.width (value_shown letter value.now)) }
{
    match value {
        Value::Int(n) => write_number(out, alloc, placing, letter, *n),
        Value::Str(s) => write_placed(out, placing, b"", s.bytes()),
    }
}

/// Writes the text of a piece. What is left are the values behind its own.
fn write_piece<'a>(
    out: &mut Vec<u8>,
    alloc: Global,
    piece: &Piece,
    values: &'a [Value],
) -> Result<&'a [Value], Memory>
    ensures { IfOk result (λ rest. (pieces : List PieceValue) →
        out.new.items ++ rendered pieces rest.now ≡ out.old.items ++ rendered (piece.now ∷ pieces) values.now) }
{
    match (piece, values) {
        (Piece::Literal(bytes), _) => {
            out.extend_from_slice(bytes.as_slice())?;
            Ok(values)
        }
        (Piece::Conversion { .. }, []) => Ok(values),
        (
            Piece::Conversion {
                left,
                zero,
                width,
                letter,
            },
            [value, rest @ ..],
        ) => {
            let placing = Placing {
                left: *left,
                zero: *zero && !is_text_letter(*letter),
                width: *width,
            };
            write_value(out, alloc, placing, *letter, value)?;
            Ok(rest)
        }
    }
}

/// Writes the text of a `printf` call: the format's pieces in their order, each conversion with the text of the
/// next of the values, of which there are as many, each of the type that its conversion wants.
///
/// `d` and `i` print a number with its sign, `u`, `x` and `X` its 64 bits unsigned, `c` its low 8 bits as
/// one byte, and `s` a string. A text shorter than its width stands right in it, and left with `-`; with
/// `0` and no `-` zeros fill a number behind its sign. A longer text is not cut. It takes time linear in
/// the pieces and the text.
///
/// # Errors
///
/// [`Memory`] may come at any pieces. After it a part of the text may be written.
pub fn write_rendered(
    out: &mut Vec<u8>,
    alloc: Global,
    pieces: &[Piece],
    values: &[Value],
) -> Result<(), Memory>
    requires { AreArgumentsOf pieces.now values.now }
    ensures { OnOk result (out.new.items ≡ out.old.items ++ rendered pieces.now values.now) }
{
    let mut rest = values;
    for piece in pieces {
        rest = write_piece(out, alloc, piece, rest)?;
    }
    Ok(())
}

/// The text of a `printf` call, as [`write_rendered`] writes it.
///
/// # Errors
///
/// [`Memory`] may come at any pieces.
pub fn render(alloc: Global, pieces: &[Piece], values: &[Value]) -> Result<Vec<u8>, Memory>
    requires { AreArgumentsOf pieces.now values.now }
    ensures { IfOk result (λ text. text.items ≡ rendered pieces.now values.now) }
{
    let mut text = Vec::new(alloc);
    write_rendered(&mut text, alloc, pieces, values)?;
    Ok(text)
}
