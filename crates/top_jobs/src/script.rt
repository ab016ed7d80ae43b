// The trees of scripts, and why scripts are refused.
ghost use Rattle.std.specs.Prelude.{◌≡◌, ◌≤◌, IfErr, IfOk, length, slice_get};
ghost use Rattle.bt_lexer.specs.Places.{offset_of};
ghost use Rattle.top_jobs.specs.Script.{token_place, offset_place, lexical_refusal, parse_refusal, attach_refusal, type_refusal, HasTree};
ghost use Rattle.top_jobs.specs.Doing.{IsTextRefusal};

use bt_ast::probe::Script;
use bt_attach::error::AttachError;
use bt_core::limits::SCRIPT_BYTES;
use bt_core::place::Place;
use bt_grammar::error::ParseError;
use bt_lexer::error::LexError;
use bt_lexer::laws::few_tokens;
use bt_lexer::lexer::lex;
use bt_lexer::line::line_column;
use bt_lexer::token::Token;
use bt_parser::parse::parse;
use expr_types::fault::TypeError;
use std::alloc::Global;
use top_refusals::refusal::{Refusal, ScriptFault, ScriptRefusal};

/// The line and column of a byte, by its offset in the text.
fn offset_place(text: &[u8], offset: u64) -> Place
    requires within { offset ≤ length text.now }
    requires short { length text.now ≤ SCRIPT_BYTES }
    ensures { result ≡ offset_place text.now offset }
{
    line_column(text, offset as usize)
}

/// The refusal of a script for its fault at a place.
fn fault_at(fault: ScriptFault, place: Place) -> Refusal
    ensures { result ≡ Refusal.Script (ScriptRefusal.Fault fault place) }
{
    Refusal::Script(ScriptRefusal::Fault(fault, place))
}

/// Why a text is refused whose first lexical fault is this one.
fn lexical_refusal(text: &[u8], error: LexError) -> Refusal
    requires within { offset_of error ≤ length text.now }
    requires short { length text.now ≤ SCRIPT_BYTES }
    ensures { result ≡ lexical_refusal text.now error }
{
    match error {
        LexError::BadChar(at) => fault_at(ScriptFault::BadCharacter, offset_place(text, at)),
        LexError::OpenString(at) => fault_at(ScriptFault::OpenString, offset_place(text, at)),
        LexError::OpenComment(at) => { fault_at(ScriptFault::OpenComment, offset_place(text, at)) }
        LexError::NumberTooLarge(at) => {
            fault_at(ScriptFault::NumberTooLarge, offset_place(text, at))
        }
        LexError::BadEscape(at) => fault_at(ScriptFault::BadEscape, offset_place(text, at)),
        LexError::StringTooLong(at) => {
            fault_at(ScriptFault::StringTooLong, offset_place(text, at))
        }
        LexError::Memory => Refusal::Memory,
    }
}

/// The line and column of the token with so many before it, or of the end of the text.
fn token_place(text: &[u8], tokens: &[Token], number: u32) -> Place
    requires { length text.now ≤ SCRIPT_BYTES }
    ensures { result ≡ token_place text.now (slice_get tokens.now number) }
{
    match tokens.get(number as usize) {
        Some(token) => token.place,
        None => offset_place(text, text.len() as u64),
    }
}

/// Why a text is refused whose tokens have this first fault.
fn parse_refusal(text: &[u8], tokens: &[Token], error: ParseError) -> Refusal
    requires { length text.now ≤ SCRIPT_BYTES }
    ensures { result ≡ parse_refusal text.now tokens.now error }
{
    match error {
        ParseError::Syntax(number) => {
            fault_at(ScriptFault::Syntax, token_place(text, tokens, number))
        }
        ParseError::TooDeep(number) => {
            fault_at(ScriptFault::TooDeep, token_place(text, tokens, number))
        }
        ParseError::TooMany(number) => {
            fault_at(
                ScriptFault::TooManyProbes,
                token_place(text, tokens, number),
            )
        }
        ParseError::Memory => Refusal::Memory,
    }
}

/// Why a script is refused of whose points this is the first fault.
pub(crate) fn attach_refusal(error: AttachError) -> Refusal
    ensures { result ≡ attach_refusal error }
{
    match error {
        AttachError::UnknownTracepoint(place) => fault_at(ScriptFault::UnknownTracepoint, place),
        AttachError::NoMatch(place) => fault_at(ScriptFault::NoMatch, place),
        AttachError::BadPeriod(place) => fault_at(ScriptFault::BadPeriod, place),
        AttachError::TooManyTicks(place) => fault_at(ScriptFault::TooManyTicks, place),
        AttachError::TooManyAttached(place) => fault_at(ScriptFault::TooManyAttached, place),
        AttachError::Memory => Refusal::Memory,
    }
}

/// Why a script is refused in whose bodies this is the first fault of types.
pub(crate) fn type_refusal(error: TypeError) -> Refusal
    ensures { result ≡ type_refusal error }
{
    match error {
        TypeError::Broken(fault) => fault_at(ScriptFault::Types(fault.rule), fault.place),
        TypeError::Memory => Refusal::Memory,
    }
}

/// The tree of a script, or its first fault.
pub(crate) fn tree_of(alloc: Global, text: &[u8]) -> Result<Script, Refusal>
    requires { length text.now ≤ SCRIPT_BYTES }
    ensures tree { IfOk result (HasTree text.now) }
    ensures fault { IfErr result (IsTextRefusal text.now) }
{
    few_tokens();
    let tokens = match lex(alloc, text) {
        Ok(tokens) => tokens,
        Err(LexError::Memory) => return Err(Refusal::Memory),
        Err(error) => return Err(lexical_refusal(text, error)),
    };
    match parse(alloc, tokens.as_slice()) {
        Ok(script) => Ok(script),
        Err(error) => Err(parse_refusal(text, tokens.as_slice(), error)),
    }
}
