// A whole text.
ghost use Rattle.std.specs.Prelude.{◌≡◌, ◌+◌, ◌<◌, ◌≤◌, ◌^◌, ◌++◌, ◌≢◌, length, IfErr, IfOk, List, OnOk};
ghost use Rattle.bt_lexer.specs.Tokens.{first_line, Gives, IsFirstFault, IsTokensOf};
ghost use Rattle.bt_lexer.specs.Scan.{lexed, lexed_from, tokens_at, IsPosition};
ghost use Rattle.bt_lexer.specs.declared.error.LexError.TheVariants.{Memory};

use crate::bytes::line_len;
use crate::error::LexError;
use crate::piece::{Piece, piece_at};
use crate::position::Position;
use crate::token::{Token, TokenKind};
use bt_core::items::Items;
use std::alloc::Global;

/// How many bytes a first line that begins with `#!` takes, without its newline.
fn first_line_len(text: &[u8]) -> usize
    ensures value { result ≡ length (first_line text.now) }
    ensures within { result ≤ length text.now }
{
    match text {
        [b'#', b'!', ..] => line_len(text),
        _ => 0,
    }
}

/// Adds the token of a piece of so many bytes, and nothing for a separator.
fn push_token(
    tokens: &mut Vec<Token>,
    position: Position,
    kind: Option<TokenKind>,
    len: usize,
) -> Result<(), LexError>
    requires some { 0 < len }
    requires room { position.offset + len < 2 ^ 32 }
    requires position { IsPosition position }
    ensures ok { OnOk result (tokens.new.items ≡ tokens.old.items ++ tokens_at kind position len) }
    ensures err { IfErr result (λ e. e ≡ Memory) }
{
    if let Some(kind) = kind {
        tokens.push(position.token(kind, len))?;
    }
    Ok(())
}

/// The tokens of the rest of a text, from a position on.
fn tokens_from(alloc: Global, start: Position, text: &[u8]) -> Result<Items<Token>, LexError>
    requires room { start.offset + length text.now < 2 ^ 32 }
    requires position { IsPosition start }
    ensures { Gives result (lexed_from 0 start text.now) }
{
    let mut tokens = Vec::new(alloc);
    let mut position = start;
    let mut rest = text;
    while !rest.is_empty() {
        let Piece { kind, len } = piece_at(alloc, position.offset as u64, rest)?;
        push_token(&mut tokens, position, kind, len)?;
        let (passed, more) = rest.split_at(len);
        position = position.after(passed);
        rest = more;
    }
    Ok(Items::of(tokens))
}

/// The tokens of a text behind its first line, where that begins with `#!`.
fn tokens_of(alloc: Global, text: &[u8]) -> Result<Items<Token>, LexError>
    requires { length text.now < 2 ^ 32 }
    ensures { Gives result (lexed text.now) }
{
    let (line, rest) = text.split_at(first_line_len(text));
    let start = Position::start().after(line);
    tokens_from(alloc, start, rest)
}

/// The tokens of a text, or its first lexical fault with its offset.
///
/// A token is the longest that begins at its place. Between tokens stand blanks, newlines, carriage
/// returns and comments, `//` to the end of the line or `/* .. */`, and a first line that begins
/// with `#!` is passed over. The rules are those of the bpftrace language, with no more than they
/// name: a number is decimal, `0x` and hexadecimal, or `0` and octal, a `_` stands only between two
/// digits, and a string has at most 1,024 bytes after escapes.
///
/// Where a string has several faults the one that is read first comes; that it is open or too long
/// counts as read at its end.
pub fn lex(alloc: Global, text: &[u8]) -> Result<Items<Token>, LexError>
    requires { length text.now < 2 ^ 32 }

    // What is answered are the tokens of the text, or its first fault.
    ensures tokens { IfOk result (IsTokensOf text.now) }
    ensures fault { IfErr result (λ fault. fault ≢ Memory → IsFirstFault text.now fault) }

    // A text that has tokens is answered with them, and one that has a fault with its first one.
    ensures only_tokens { (tokens : List Token) → IsTokensOf text.now tokens → Gives result (Ok tokens) }
    ensures only_fault { (fault : LexError) → IsFirstFault text.now fault → Gives result (Err fault) }
{
    tokens_of(alloc, text)
}
