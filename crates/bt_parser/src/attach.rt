// Attach tokens: which are points, and of what.
ghost use Rattle.std.specs.Prelude.{◌≡◌, ◌∷◌, ◌≤◌, [], length, take_while, IfNone, IfSome};
ghost use Rattle.std.specs.List.{list_all, slice_split};
ghost use Rattle.bt_core.specs.declared.place.Place.{Place};
ghost use Rattle.bt_grammar.specs.Attach.{attach_point, interval_point, is_interval_word, is_name, is_name_byte, is_tracepoint_word, tracepoint_point, unit_of};
ghost use Rattle.bt_grammar.specs.Tokens.{origin, point_class};
ghost use Rattle.bt_parser.specs.Points.{is_colon, not_colon, number_of, point_named, with_digit, with_digits};

use bt_ast::probe::Unit;
use bt_core::bytes::{is_digit, is_word_byte};
use bt_grammar::class::Class;

/// What an attach token names.
#[derive(Clone, Copy)]
pub enum Attach<'a> {
    Tracepoint { system: &'a [u8], name: &'a [u8] },
    Interval { unit: Unit, number: u64 },
}

/// How many bytes stand before the first colon.
fn colon_at(bytes: &[u8]) -> usize
    ensures value { result ≡ length (take_while not_colon bytes.now) }
    ensures within { result ≤ length bytes.now }
{
    bytes.iter().take_while(|b| **b != b':').count()
}

/// The bytes before the first colon and those behind it.
fn cut(bytes: &[u8]) -> Option<(&[u8], &[u8])>
    ensures some { IfSome result (λ p. slice_split is_colon bytes.now ≡ p.0.now ∷ slice_split is_colon p.1.now) }
    ensures none { IfNone result (slice_split is_colon bytes.now ≡ bytes.now ∷ []) }
{
    let (front, rest) = bytes.split_at(colon_at(bytes));
    match rest {
        [] => None,
        [_, behind @ ..] => Some((front, behind)),
    }
}

fn are_name_bytes(bytes: &[u8]) -> bool
    ensures { result ≡ list_all is_name_byte bytes.now }
{
    bytes.iter().all(|b| is_name_byte(*b))
}

/// Whether the bytes are a name: one or more letters, digits, `-` and `*`.
#[tactic(auto, using(crate::proofs::Parts::name_is))]
fn is_name(bytes: &[u8]) -> bool
    ensures { result ≡ is_name bytes.now }
{
    match bytes {
        [] => false,
        [_, ..] => are_name_bytes(bytes),
    }
}

fn is_name_byte(b: u8) -> bool
    ensures { result ≡ is_name_byte b }
{
    is_word_byte(b) || matches!(b, b'-' | b'*')
}

fn unit_of(word: &[u8]) -> Option<Unit>
    ensures { result ≡ unit_of word.now }
{
    match word {
        b"s" => Some(Unit::S),
        b"ms" => Some(Unit::Ms),
        b"us" => Some(Unit::Us),
        b"hz" => Some(Unit::Hz),
        _ => None,
    }
}

/// A number with one more decimal digit, where it stays below 2^64.
fn with_digit(number: u64, b: u8) -> Option<u64>
    ensures { result ≡ with_digit number b }
{
    if !is_digit(b) {
        return None;
    }
    number.checked_mul(10)?.checked_add((b - b'0') as u64)
}

/// The number that digits write, where it stays below 2^64, and 0 without digits.
fn with_digits(digits: &[u8]) -> Option<u64>
    ensures { result ≡ with_digits 0 digits.now }
{
    let mut number: u64 = 0;
    for b in digits {
        number = with_digit(number, *b)?;
    }
    Some(number)
}

/// The number that one or more decimal digits write, where it is below 2^64.
#[tactic(auto, using(crate::proofs::Parts::number_is))]
fn number_of(digits: &[u8]) -> Option<u64>
    ensures { result ≡ number_of digits.now }
{
    match digits {
        [] => None,
        [_, ..] => with_digits(digits),
    }
}

fn is_tracepoint_word(word: &[u8]) -> bool
    ensures { result ≡ is_tracepoint_word word.now }
{
    word == b"tracepoint".as_slice() || word == b"t".as_slice()
}

fn is_interval_word(word: &[u8]) -> bool
    ensures { result ≡ is_interval_word word.now }
{
    word == b"interval".as_slice() || word == b"i".as_slice()
}

/// What an attach token names, where it has one of the two forms.
pub fn attach_of(bytes: &[u8]) -> Option<Attach<'_>>
    ensures { (place : Place) → attach_point bytes.now place ≡ point_named result place }
{
    let Some((word, rest)) = cut(bytes) else {
        return None;
    };
    let Some((first, second)) = cut(rest) else {
        return None;
    };
    if let Some((_, _)) = cut(second) {
        return None;
    }
    if is_tracepoint_word(word) {
        tracepoint_of(first, second)
    } else if is_interval_word(word) {
        interval_of(first, second)
    } else {
        None
    }
}

fn tracepoint_of<'a>(system: &'a [u8], name: &'a [u8]) -> Option<Attach<'a>>
    ensures { (place : Place) → tracepoint_point system.now name.now place ≡ point_named result place }
{
    if is_name(system) && is_name(name) {
        Some(Attach::Tracepoint { system, name })
    } else {
        None
    }
}

fn interval_of<'a>(unit: &[u8], digits: &[u8]) -> Option<Attach<'a>>
    ensures { (place : Place) → interval_point (unit_of unit.now) digits.now place ≡ point_named result place }
{
    let unit = unit_of(unit)?;
    let number = number_of(digits)?;
    Some(Attach::Interval { unit, number })
}

/// The class of an attach token.
pub fn attach_class(bytes: &[u8]) -> Class
    ensures { result ≡ point_class (attach_point bytes.now origin) }
{
    match attach_of(bytes) {
        Some(Attach::Tracepoint { .. }) => Class::TracepointPoint,
        Some(Attach::Interval { .. }) => Class::IntervalPoint,
        None => Class::Foreign,
    }
}
