// Code and its bytes, and the forms of opcodes.
ghost use Rattle.bpf_insn.specs.Code.{IsWellFormed};

use anyhow::{Context, Result};
use bpf_encode::decode::decode;
use bpf_encode::encode::encode;
use bpf_encode::listing::listing;
use bpf_insn::form::Form;
use bpf_insn::insn::Insn;

/// Tells the form of each opcode that has one.
pub(crate) fn tell_forms<R: Print>(rt: &R) -> Result<()> {
    for opcode in 0..=255u8 {
        if let Some(form) = Form::at(opcode) {
            println!(rt; "{opcode:02x}: {form:?}")?;
        }
    }
    Ok(())
}

/// Tells of code that bytes are whether it has the same bytes again, and its instructions.
fn tell_insns<R: Print + AllocGlobal>(rt: &R, name: &str, code: &[Insn], bytes: &[u8]) -> Result<()>
    requires { IsWellFormed code.now }
{
    let same = encode(rt.alloc(), code)?.as_slice() == bytes;
    println!(rt; "{name}: the same bytes {same}")?;
    for insn in code {
        println!(rt; "    {insn:?}")?;
    }
    Ok(())
}

/// Tells the listing of bytes, where they are whole slots.
fn tell_listing<R: Print + AllocGlobal>(rt: &R, bytes: &[u8]) -> Result<()> {
    let bytes = &bytes[..bytes.len().min(32_768)];
    if bytes.len() % 8 == 0 {
        let text = listing(rt.alloc(), bytes)?;
        let text = str::from_utf8(text.as_slice())?;
        print!(rt; "{text}")?;
    }
    Ok(())
}

/// Tells what the code of bytes is: its instructions, whether they have the same bytes again, and its listing; or why it is none.
fn tell_bytes<R: Print + AllocGlobal>(rt: &R, name: &str, bytes: &[u8]) -> Result<()> {
    let bytes = &bytes[..bytes.len().min(32_768)];
    match decode(rt.alloc(), bytes) {
        Ok(code) => {
            tell_insns(rt, name, code.as_slice(), bytes)?;
            tell_listing(rt, bytes)
        }
        Err(error) => Ok(println!(rt; "{name}: {error:?}")?),
    }
}

/// Tells what the code of a line `NAME = CODE` is, in hexadecimal digits.
pub(crate) fn tell_code<R: Print + AllocGlobal>(rt: &R, line: &str) -> Result<()> {
    let (name, digits) = line.split_once(" = ").context("no code")?;
    let bytes = hex::decode(rt.alloc(), digits)?;
    tell_bytes(rt, name, bytes.as_slice())
}
