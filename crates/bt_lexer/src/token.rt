// Tokens and where they stand.
use bt_core::items::Items;
use bt_core::place::Place;

/// What a token is, with the bytes of the token, or what they stand for.
pub enum TokenKind {
    /// A letter, then letters and digits, where `_` counts as a letter.
    Word(Items<u8>),
    /// `tracepoint`, `t`, `interval` or `i`, a colon, then letters, digits, `-`, `*` and `:`.
    Attach(Items<u8>),
    /// `@`, alone or with a word.
    Map(Items<u8>),
    /// `$` and a word.
    Var(Items<u8>),
    /// The value of a number. One from 2^63 on stands as the signed number with the same 64 bits.
    Number(i64),
    /// The bytes of a string, after escapes.
    Text(Items<u8>),
    /// An operator or punctuation.
    Mark(Items<u8>),
}

// Written out, so that it is one call wherever such a value is let go.
impl Drop for TokenKind {
    fn drop(self) {
        match self {
            TokenKind::Word(_)
            | TokenKind::Attach(_)
            | TokenKind::Map(_)
            | TokenKind::Var(_)
            | TokenKind::Number(_)
            | TokenKind::Text(_)
            | TokenKind::Mark(_) => {}
        }
    }
}

/// A token, its span in bytes, and the place at which it begins.
pub struct Token {
    pub kind: TokenKind,
    /// How many bytes stand before the token.
    pub start: u32,
    /// How many bytes stand before its end.
    pub end: u32,
    pub place: Place,
}

// Written out, so that it is one call wherever such a value is let go.
impl Drop for Token {
    fn drop(self) {
        let Self {
            kind: _,
            start: _,
            end: _,
            place: _,
        } = self;
    }
}
