// The kinds of entries.
ghost use Rattle.std.specs.Prelude.{◌≡◌};
ghost use Rattle.std.specs.Option.{option_map};
ghost use Rattle.account_format.specs.Reading.{kind_of, kind_at};

/// What an entry tells that was done: the operation, without what belongs to it.
#[derive(Clone, Copy)]
pub(crate) enum Kind {
    Get,
    Set,
    Delete,
    ReadAll,
    Clear,
    Zero,
    Add,
    Read,
    ClearOf,
    ZeroOf,
    Cross,
    Check,
    Stop,
    Emit,
}

/// The kind of a byte.
fn kind_of(byte: u8) -> Option<Kind>
    ensures { result ≡ kind_of byte }
{
    match byte {
        1 => Some(Kind::Get),
        2 => Some(Kind::Set),
        3 => Some(Kind::Delete),
        4 => Some(Kind::ReadAll),
        5 => Some(Kind::Clear),
        6 => Some(Kind::Zero),
        7 => Some(Kind::Add),
        8 => Some(Kind::Read),
        9 => Some(Kind::ClearOf),
        10 => Some(Kind::ZeroOf),
        11 => Some(Kind::Cross),
        12 => Some(Kind::Check),
        13 => Some(Kind::Stop),
        14 => Some(Kind::Emit),
        _ => None,
    }
}

/// The kind of the first byte, and the bytes after it.
pub(crate) fn kind_at(bytes: &[u8]) -> Option<(Kind, &[u8])>
    ensures { option_map (λ read. (read.0, read.1.now)) result ≡ kind_at bytes.now }
{
    if bytes.is_empty() {
        return None;
    }
    let Some(kind) = kind_of(bytes[0]) else {
        return None;
    };
    Some((kind, &bytes[1..]))
}
