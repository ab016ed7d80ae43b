// What is told of tokens and of offsets.
use anyhow::Result;
use bt_lexer::line::line_column;
use bt_lexer::token::{Token, TokenKind};

/// Tells the slices of a text that are its tokens, and behind a number its value as a signed number of 64 bits.
pub(crate) fn tell_tokens<R: Print>(rt: &R, text: &[u8], tokens: &[Token]) -> Result<()> {
    for token in tokens {
        let slice = text.get(token.start as usize..token.end as usize);
        let slice = str::from_utf8(slice.unwrap_or(b"no slice")).unwrap_or("no text");
        print!(rt; " {slice}")?;
        if let TokenKind::Number(value) = token.kind {
            print!(rt; "={value}")?;
        }
    }
    println!(rt; "")?;
    Ok(())
}

/// Tells the line and the column of an offset.
pub(crate) fn tell_place<R: Print>(rt: &R, text: &[u8], offset: usize) -> Result<()> {
    let short = &text[..text.len().min(4096)];
    let place = line_column(short, offset.min(short.len()));
    println!(rt; " {}:{}", place.line, place.column)?;
    Ok(())
}
