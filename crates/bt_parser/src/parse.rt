// The parser.
ghost use Rattle.std.specs.Prelude.{◌≡◌, ◌≢◌, ◌<◌, ◌^◌, Err, IfErr, IfOk, None, Ok, length};
ghost use Rattle.bt_parser.specs.ClassLists.{classes_of};
ghost use Rattle.bt_parser.specs.Outcomes.{Answers, answer_of};
ghost use Rattle.bt_grammar.specs.Refusals.{IsAccepted, IsRefusal};
ghost use Rattle.bt_grammar.specs.Tokens.{items};
ghost use Rattle.bt_grammar.specs.declared.error.ParseError.TheVariants.{Memory};

use crate::classes::classify;
use crate::cursor::Cursor;
use crate::nesting::first_too_deep;
use crate::script::{Outcome, script};
use bt_ast::probe::Script;
use bt_grammar::class::Class;
use bt_grammar::error::ParseError;
use bt_lexer::token::Token;
use std::alloc::Global;

/// The answer where no token is too deep.
fn shallow_answer(outcome: Outcome, place: u32) -> Result<Script, ParseError>
    ensures { result ≡ answer_of outcome place None }
{
    match outcome {
        Outcome::Whole(probes) => Ok(Script { probes }),
        Outcome::Refused => Err(ParseError::Syntax(place)),
        Outcome::Full => Err(ParseError::TooMany(place)),
    }
}

/// The answer, by the outcome at a place and the place of the first token that is too deep.
fn answer_of(outcome: Outcome, place: u32, deep: Option<u32>) -> Result<Script, ParseError>
    ensures { result ≡ answer_of outcome place deep }
{
    let Some(deep) = deep else {
        return shallow_answer(outcome, place);
    };
    match outcome {
        Outcome::Whole(_) => Err(ParseError::TooDeep(deep)),
        Outcome::Refused => {
            if place <= deep {
                Err(ParseError::Syntax(place))
            } else {
                Err(ParseError::TooDeep(deep))
            }
        }
        Outcome::Full => {
            if place < deep {
                Err(ParseError::TooMany(place))
            } else {
                Err(ParseError::TooDeep(deep))
            }
        }
    }
}

/// The tree of a script's tokens, or its first fault.
///
/// The grammar is that of the bpftrace language for probes, predicates, statements and expressions, with no more than
/// its profile here names. A fault stands at the least token; at one token syntax comes before depth, and depth before
/// the number of probes. Syntax is refused at the number of tokens of the longest front of the list that begins some
/// script, which is the number of all tokens where they break off.
pub fn parse(alloc: Global, tokens: &[Token]) -> Result<Script, ParseError>
    requires { length tokens.now < 2 ^ 32 }
    ensures tree { IfOk result (λ script. IsAccepted (items tokens.now) script) }
    ensures fault { IfErr result (λ fault. fault ≢ Memory → IsRefusal (items tokens.now) fault) }
{
    let classes = classify(alloc, tokens)?;
    let classes = classes.as_slice();
    match first_too_deep(alloc, classes)? {
        None => parse_front(alloc, tokens, classes, None),
        Some(deep) => {
            let end = deep + 1;
            parse_front(alloc, &tokens[..end], &classes[..end], Some(deep as u32))
        }
    }
}

/// The answer for a front of the tokens, of these classes, that ends behind the first token that is too deep, or for all.
fn parse_front(
    alloc: Global,
    front: &[Token],
    classes: &[Class],
    deep: Option<u32>,
) -> Result<Script, ParseError>
    requires short { length front.now < 2 ^ 32 }
    requires classes { classes.now ≡ classes_of front.now }
    ensures ok { IfOk result (λ script. Answers front.now deep (Ok script)) }
    ensures err { IfErr result (λ fault. fault ≢ Memory → Answers front.now deep (Err fault)) }
{
    let mut tokens = Cursor::new(front, classes);
    let outcome = script(alloc, &mut tokens)?;
    let place = front.len() - tokens.left();
    answer_of(outcome, place as u32, deep)
}
