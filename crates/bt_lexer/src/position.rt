// Positions in a text.
ghost use Rattle.std.specs.Prelude.{◌≡◌, ◌+◌, ◌<◌, ◌^◌, length};
ghost use Rattle.bt_lexer.specs.Scan.{after, after_byte, start, token_at, IsPosition};

use crate::token::{Token, TokenKind};
use bt_core::place::Place;

/// The number of the first line and of the first column.
const FIRST: usize = 1;

/// A position in a text: how many bytes stand before it, and its line and column, both from 1.
#[derive(Clone, Copy)]
pub struct Position {
    pub offset: usize,
    pub line: usize,
    pub column: usize,
}

impl Position {
    ghost use Rattle.bt_lexer.specs.Scan.{after, after_byte, start, token_at, IsPosition};

    /// The first position of a text.
    pub fn start() -> Position
        ensures value { result ≡ start }
        ensures position { IsPosition result }
    {
        Position {
            offset: 0,
            line: FIRST,
            column: FIRST,
        }
    }

    /// The position after a byte.
    fn after_byte(self, b: u8) -> Position
        requires room { self.offset + 1 < 2 ^ 32 }
        requires position { IsPosition self }
        ensures value { result ≡ after_byte self b }
        ensures position { IsPosition result }
        ensures next { result.offset ≡ self.offset + 1 }
    {
        let offset = self.offset + 1;
        if b == b'\n' {
            Position {
                offset,
                line: self.line + 1,
                column: FIRST,
            }
        } else {
            Position {
                offset,
                line: self.line,
                column: self.column + 1,
            }
        }
    }

    /// The position after the bytes.
    pub fn after(self, bytes: &[u8]) -> Position
        requires room { self.offset + length bytes.now < 2 ^ 32 }
        requires position { IsPosition self }
        ensures value { result ≡ after self bytes.now }
        ensures position { IsPosition result }
        ensures next { result.offset ≡ self.offset + length bytes.now }
    {
        let mut position = self;
        for b in bytes {
            position = position.after_byte(*b);
        }
        position
    }

    /// The token of so many bytes that stands here.
    pub fn token(self, kind: TokenKind, len: usize) -> Token
        requires some { 0 < len }
        requires room { self.offset + len < 2 ^ 32 }
        requires position { IsPosition self }
        ensures { result ≡ token_at kind self len }
    {
        Token {
            kind,
            start: self.offset as u32,
            end: (self.offset + len) as u32,
            place: Place {
                line: self.line as u32,
                column: self.column as u32,
            },
        }
    }
}
