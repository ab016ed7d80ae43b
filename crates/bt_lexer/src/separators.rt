// Comments.
ghost use Rattle.std.specs.Prelude.{◌≡◌, ◌+◌, ◌<◌, ◌≤◌, ◌^◌, length, IfOk, IfSome, Ok};
ghost use Rattle.bt_lexer.specs.Scan.{closes, comment_len, comment_piece, line_len, separator, IsWithin};
ghost use Rattle.bt_lexer.specs.Tokens.{Gives};

use crate::bytes::line_len;
use crate::error::LexError;
use crate::piece::Piece;

/// The comment to the end of the line, where these bytes stand behind `//`.
pub fn line_comment(bytes: &[u8]) -> Piece
    requires { length bytes.now < 2 ^ 32 }
    ensures value { Ok result ≡ separator (line_len bytes.now + 2) }
    ensures within { IsWithin (length bytes.now + 2) result }
{
    Piece::separator(line_len(bytes) + 2)
}

fn ends_comment(bytes: &[u8]) -> bool
    ensures { result ≡ closes bytes.now }
{
    matches!(bytes, [b'*', b'/', ..])
}

/// How many bytes stand up to and with the first `*/`.
fn comment_len(bytes: &[u8]) -> Option<usize>
    requires { length bytes.now < 2 ^ 32 }
    ensures value { result ≡ comment_len 0 bytes.now }
    ensures within { IfSome result (λ n. n ≤ length bytes.now) }
{
    for i in 0..bytes.len() {
        if ends_comment(&bytes[i..]) {
            return Some(i + 2);
        }
    }
    None
}

/// The comment whose `/*` stands before these bytes.
pub fn comment_piece(offset: u64, bytes: &[u8]) -> Result<Piece, LexError>
    requires { length bytes.now < 2 ^ 32 }
    ensures value { Gives result (comment_piece offset (comment_len 0 bytes.now)) }
    ensures within { IfOk result (λ piece. IsWithin (length bytes.now + 2) piece) }
{
    match comment_len(bytes) {
        None => Err(LexError::OpenComment(offset)),
        Some(len) => Ok(Piece::separator(len + 2)),
    }
}
