// Values, written as bytes.
ghost use Rattle.std.specs.Prelude.{◌≡◌, ◌++◌, ◌∷◌, OnOk};
ghost use Rattle.std.specs.List.{AllByRecursion};
ghost use Rattle.bt_core.specs.KeyBytes.{FitsValue};
ghost use Rattle.print_list.specs.Codes.{value_code, values_code, Extends};

use bt_core::memory::Memory;
use bt_core::value::Value;

/// Writes a byte and a piece behind bytes. After [`Memory`] a part of it may be written.
fn push_piece(bytes: &mut Vec<u8>, kind: u8, piece: &[u8]) -> Result<(), Memory>
    ensures piece { OnOk result (bytes.new.items ≡ bytes.old.items ++ kind ∷ piece.now) }
    ensures grown { Extends bytes.old.items bytes.new.items }
{
    bytes.push(kind)?;
    bytes.extend_from_slice(piece)?;
    Ok(())
}

/// Writes a value behind bytes. After [`Memory`] a part of it may be written.
fn push_value(bytes: &mut Vec<u8>, value: &Value) -> Result<(), Memory>
    ensures value { OnOk result (bytes.new.items ≡ bytes.old.items ++ value_code value.now) }
    ensures fits { OnOk result (FitsValue value.now) }
    ensures grown { Extends bytes.old.items bytes.new.items }
{
    match value {
        Value::Int(number) => push_piece(bytes, 0, &number.to_le_bytes()),
        Value::Str(text) => {
            let text = text.bytes();
            push_piece(bytes, text.len() as u8 + 1, text)
        }
    }
}

/// Writes values behind bytes, one behind the other. After [`Memory`] a part of them may be written.
pub(crate) fn push_values(bytes: &mut Vec<u8>, values: &[Value]) -> Result<(), Memory>
    ensures values { OnOk result (bytes.new.items ≡ bytes.old.items ++ values_code values.now) }
    ensures fit { OnOk result (AllByRecursion FitsValue values.now) }
    ensures grown { Extends bytes.old.items bytes.new.items }
{
    for value in values {
        push_value(bytes, value)?;
    }
    Ok(())
}
