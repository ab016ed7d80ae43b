// Formats whose pieces, or whose bad place, were worked out by hand.
use fmt_text::laws::one_answer;
use fmt_text::piece::{FormatFault, Piece};
use fmt_text::read::read_format;
use std::test::Fail;

/// What a piece is to be.
#[derive(Clone, Copy)]
enum Want {
    /// These bytes stand for themselves.
    Literal(&'static [u8]),
    /// A conversion: whether it has the flags `-` and `0`, its width and its letter.
    Conversion(bool, bool, u32, u8),
}

/// Whether a piece is this one.
fn is_wanted(piece: &Piece, want: &Want) -> bool {
    match (piece, want) {
        (Piece::Literal(bytes), Want::Literal(text)) => bytes.as_slice() == *text,
        (
            Piece::Conversion {
                left,
                zero,
                width,
                letter,
            },
            Want::Conversion(is_left, has_zeros, least, by),
        ) => left == is_left && zero == has_zeros && width == least && letter == by,
        _ => false,
    }
}

/// The pieces of `"%-6s|%5d|%%%08llx%0-255hhX%c%%\n"`.
const PIECES: [Want; 8] = [
    Want::Conversion(true, false, 6, b's'),
    Want::Literal(b"|"),
    Want::Conversion(false, false, 5, b'd'),
    Want::Literal(b"|%"),
    Want::Conversion(false, true, 8, b'x'),
    Want::Conversion(true, true, 255, b'X'),
    Want::Conversion(false, false, 0, b'c'),
    Want::Literal(b"%\n"),
];

#[test]
fn formats_have_pieces(rt: HostRuntime) -> Result<(), Fail> {
    let pieces = read_format(rt.alloc(), b"%-6s|%5d|%%%08llx%0-255hhX%c%%\n")?;
    assert_eq!(rt; pieces.as_slice().len(), PIECES.len());
    for (piece, want) in pieces.as_slice().iter().zip(&PIECES) {
        assert!(rt; is_wanted(piece, want));
    }
    Ok(())
}

#[test]
fn an_empty_format_has_no_pieces(rt: HostRuntime) -> Result<(), Fail> {
    assert!(rt; read_format(rt.alloc(), b"")?.as_slice().is_empty());
    one_answer();
    Ok(())
}

/// Texts that are no formats, and where.
const BAD: [(&[u8], u64); 9] = [
    (b"%", 0),
    (b"%q", 0),
    (b"%%%", 2),
    (b"%d %-00d", 3),
    (b"%0005d", 0),
    (b"%256d", 0),
    (b"ab%08s", 2),
    (b"%lhd", 0),
    (b"%5%", 0),
];

#[test]
fn bad_places_are_told(rt: HostRuntime) {
    for (text, offset) in &BAD {
        let read = read_format(rt.alloc(), *text);
        assert!(rt;
            matches!(read, Err(FormatFault::BadAt(place)) if place == *offset),
            "{text:?}"
        );
    }
}
