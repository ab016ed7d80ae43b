// Byte strings as text, and lines.
ghost use Rattle.std.specs.Prelude.{◌≡◌, ◌++◌, false, string_bytes, IfOk, OnOk};
ghost use Rattle.serde_json.specs.View.{view};
ghost use Rattle.serde_json.specs.Written.{has_float};
ghost use Rattle.json_out.specs.Texts.{text_of_bytes, json_line};

use bt_core::memory::Memory;
use serde_json::Value as Json;
use std::alloc::Global;

/// The text whose characters have the numbers of these bytes.
pub fn text_of(alloc: Global, bytes: &[u8]) -> Result<String, Memory>
    ensures { IfOk result (λ text. string_bytes text ≡ text_of_bytes bytes.now) }
{
    let mut text = String::with_capacity(alloc, bytes.len())?;
    for byte in bytes {
        text.push(char::from(*byte))?;
    }
    Ok(text)
}

/// The line of a value, which is let go.
#[tactic(auto, unfolding(crate::specs::Texts::json_line))]
pub fn line_of(alloc: Global, value: Json) -> Result<Vec<u8>, Memory>
    requires { has_float (view value) ≡ false }
    ensures { IfOk result (λ line. line.items ≡ json_line (view value)) }
{
    let mut line = value.to_vec(alloc)?;
    line.push(b'\n')?;
    Ok(line)
}

/// Writes the line of a value, which is let go.
pub fn write_line(out: &mut Vec<u8>, alloc: Global, value: Json) -> Result<(), Memory>
    requires { has_float (view value) ≡ false }
    ensures { OnOk result (out.new.items ≡ out.old.items ++ json_line (view value)) }
{
    let line = line_of(alloc, value)?;
    out.extend_from_slice(&line)?;
    Ok(())
}
