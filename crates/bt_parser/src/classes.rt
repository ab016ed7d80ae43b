// The classes of tokens.
ghost use Rattle.std.specs.Prelude.{◌≡◌, IfOk};
ghost use Rattle.bt_grammar.specs.Tokens.{class_of};
ghost use Rattle.bt_parser.specs.ClassLists.{classes_of};

use crate::attach::attach_class;
use bt_core::items::Items;
use bt_core::memory::Memory;
use bt_grammar::class::Class;
use bt_grammar::words::{mark_class, word_class};
use bt_lexer::token::{Token, TokenKind};
use std::alloc::Global;

/// The class of a token.
fn class_of(kind: &TokenKind) -> Class
    ensures { result ≡ class_of kind.now }
{
    match kind {
        TokenKind::Word(word) => word_class(word.as_slice()),
        TokenKind::Attach(bytes) => attach_class(bytes.as_slice()),
        TokenKind::Map(_) => Class::MapName,
        TokenKind::Var(_) => Class::VarName,
        TokenKind::Number(_) => Class::NumberLiteral,
        TokenKind::Text(_) => Class::TextLiteral,
        TokenKind::Mark(mark) => mark_class(mark.as_slice()),
    }
}

/// The class of each of the tokens.
pub fn classify(alloc: Global, tokens: &[Token]) -> Result<Items<Class>, Memory>
    ensures { IfOk result (λ classes. classes ≡ classes_of tokens.now) }
{
    let mut classes = Items::new(alloc);
    for token in tokens {
        classes.push(class_of(&token.kind))?;
    }
    Ok(classes)
}
