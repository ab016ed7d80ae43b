// The words of a script's text.
ghost use Rattle.std.specs.Prelude.{◌≡◌, ◌++◌, OnOk};
ghost use Rattle.ast_text.specs.Words.{token, ending, number_text, quoted_byte, quoted_bytes, quoted_text, builtin_word, gathering_word, unary_mark, binary_mark, assign_mark, unit_word};

use bt_ast::expr::Builtin;
use bt_ast::gathering::Gathering;
use bt_ast::probe::Unit;
use bt_core::memory::Memory;
use bt_core::operator::{BinOp, UnOp};
use bt_grammar::class::Class;
use bt_grammar::words::{mark_of, word_of};
use itoa::Buffer;

/// Writes a token and a blank after it.
pub(crate) fn write_token(out: &mut Vec<u8>, word: &[u8]) -> Result<(), Memory>
    ensures { OnOk result (out.new.items ≡ out.old.items ++ token word.now) }
{
    out.extend_from_slice(word)?;
    out.push(b' ')?;
    Ok(())
}

/// Writes a token that ends its line.
pub(crate) fn write_ending(out: &mut Vec<u8>, word: &[u8]) -> Result<(), Memory>
    ensures { OnOk result (out.new.items ≡ out.old.items ++ ending word.now) }
{
    out.extend_from_slice(word)?;
    out.extend_from_slice(b" \n")?;
    Ok(())
}

/// Writes a number by its 64 bits without a sign.
pub(crate) fn write_number(out: &mut Vec<u8>, number: i64) -> Result<(), Memory>
    ensures { OnOk result (out.new.items ≡ out.old.items ++ number_text number) }
{
    let mut buffer = Buffer::new();
    write_token(out, buffer.format(number.cast_unsigned()).as_bytes())
}

/// Writes a byte of a string between quotes.
fn write_byte(out: &mut Vec<u8>, byte: u8) -> Result<(), Memory>
    ensures { OnOk result (out.new.items ≡ out.old.items ++ quoted_byte byte) }
{
    match byte {
        b'\n' => out.extend_from_slice(b"\\n")?,
        b'\t' => out.extend_from_slice(b"\\t")?,
        b'\r' => out.extend_from_slice(b"\\r")?,
        b'"' => out.extend_from_slice(b"\\\"")?,
        b'\\' => out.extend_from_slice(b"\\\\")?,
        _ => out.push(byte)?,
    }
    Ok(())
}

/// Writes the bytes of a string between quotes.
fn write_bytes(out: &mut Vec<u8>, text: &[u8]) -> Result<(), Memory>
    ensures { OnOk result (out.new.items ≡ out.old.items ++ quoted_bytes text.now) }
{
    for byte in text {
        write_byte(out, *byte)?;
    }
    Ok(())
}

/// Writes a string with its quotes.
pub(crate) fn write_quoted(out: &mut Vec<u8>, text: &[u8]) -> Result<(), Memory>
    ensures { OnOk result (out.new.items ≡ out.old.items ++ quoted_text text.now) }
{
    out.push(b'"')?;
    write_bytes(out, text)?;
    write_token(out, b"\"")
}

/// The word of a builtin variable.
pub(crate) fn builtin_word(builtin: Builtin) -> &'static [u8]
    ensures { result.now ≡ builtin_word builtin }
{
    word_of(Class::BuiltinWord(builtin))
}

/// The word of a map function of one number.
pub(crate) fn gathering_word(function: Gathering) -> &'static [u8]
    ensures { result.now ≡ gathering_word function }
{
    word_of(Class::GatherWord(function))
}

/// The mark of an operator before its operand.
pub(crate) fn unary_mark(op: UnOp) -> &'static [u8]
    ensures { result.now ≡ unary_mark op }
{
    match op {
        UnOp::Neg => mark_of(Class::Operator(BinOp::Sub)),
        UnOp::LogNot => mark_of(Class::Bang),
        UnOp::BitNot => mark_of(Class::Tilde),
    }
}

/// The mark of an operator between its operands.
pub(crate) fn binary_mark(op: BinOp) -> &'static [u8]
    ensures { result.now ≡ binary_mark op }
{
    mark_of(Class::Operator(op))
}

/// Writes `=`, or the operator before it.
pub(crate) fn write_assign(out: &mut Vec<u8>, op: Option<BinOp>) -> Result<(), Memory>
    ensures { OnOk result (out.new.items ≡ out.old.items ++ token (assign_mark op)) }
{
    if let Some(op) = op {
        out.extend_from_slice(binary_mark(op))?;
    }
    write_token(out, b"=")
}

/// The word of a unit of time.
pub(crate) fn unit_word(unit: Unit) -> &'static [u8]
    ensures { result.now ≡ unit_word unit }
{
    match unit {
        Unit::S => b"s",
        Unit::Ms => b"ms",
        Unit::Us => b"us",
        Unit::Hz => b"hz",
    }
}
