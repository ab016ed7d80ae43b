// The tokens that are left.
ghost use Rattle.std.specs.Prelude.{◌≡◌, ◌<◌, IfOk, IfSome, IsSome, IsTrue, List, OnOk, false, length, true};
ghost use Rattle.bt_grammar.specs.declared.class.Class.{Class};
ghost use Rattle.bt_grammar.specs.declared.class.Class.TheVariants.{NumberLiteral};
ghost use Rattle.bt_grammar.specs.Classes.{is, is_point, joins, tier_of};
ghost use Rattle.bt_parser.specs.ClassLists.{classes_of, is_number_kind};
ghost use Rattle.bt_parser.specs.Contract.{Reads};
ghost use Rattle.bt_grammar.specs.Form.{brace_next};
ghost use Rattle.bt_grammar.specs.Reading.{read, reads, rest_of, starts};
ghost use Rattle.bt_grammar.specs.Rules.{a_number, ends, mark};
ghost use Rattle.bt_parser.specs.Mirror.{class_at, front_place, named_form, operator_at, prefix_at, builtin_at, step_at, when, word_form};
ghost use Rattle.bt_parser.specs.Probes.{point_form};
ghost use Rattle.bt_parser.specs.Statements.{begins_aggregation, begins_control, call_at, gathering_at, is_else_if, update_at};
ghost use Rattle.bt_grammar.specs.Tables.{is_call};
ghost use Rattle.bt_grammar.specs.Tokens.{items};
ghost use Rattle.bt_grammar.specs.Trees.{kind_bytes, kind_number};

use crate::fault::Fault;
use crate::point::point_of;
use crate::tables::{compares, is_call, is_point, tier_of};
use bt_ast::expr::Builtin;
use bt_ast::gathering::Gathering;
use bt_ast::probe::Point;
use bt_core::items::Items;
use bt_core::memory::{Memory, TryCopy};
use bt_core::operator::{BinOp, UnOp};
use bt_core::place::Place;
use bt_grammar::class::{Class, Tier};
use bt_lexer::token::{Token, TokenKind};
use std::alloc::Global;
use std::marker::Model;

/// The bytes of a token and where it stands.
#[derive(Drop)]
pub struct Named {
    pub bytes: Items<u8>,
    pub place: Place,
}

/// The tokens that are left, with the class of each. After a refusal the refused token is the first of them.
#[derive(Drop)]
pub struct Cursor<'a> {
    rest: &'a [Token],
    classes: &'a [Class],
}

impl<'a> Model for Cursor<'a> {
    ghost use Rattle.std.specs.Prelude.{◌≡◌, List};
    ghost use Rattle.bt_lexer.specs.declared.token.Token.{Token};
    ghost use Rattle.bt_parser.specs.ClassLists.{classes_of};

    ghost Value = { List Token };

    ghost view = { λ c. c.rest.now };

    ghost invariant = { λ c. c.classes.now ≡ classes_of c.rest.now };
}

/// Whether a class is the expected one.
fn is(expected: Class, class: Class) -> bool
    ensures { result ≡ is expected class }
{
    class == expected
}

/// The bytes of a token that is no number.
fn bytes_of(kind: &TokenKind) -> &[u8]
    requires { is_number_kind kind.now ≡ false }
    ensures { result.now ≡ kind_bytes kind.now }
{
    match kind {
        TokenKind::Word(bytes) => bytes.as_slice(),
        TokenKind::Attach(bytes) => bytes.as_slice(),
        TokenKind::Map(bytes) => bytes.as_slice(),
        TokenKind::Var(bytes) => bytes.as_slice(),
        TokenKind::Text(bytes) => bytes.as_slice(),
        TokenKind::Mark(bytes) => bytes.as_slice(),
        TokenKind::Number(_) => unreachable!(),
    }
}

/// The number that a token is.
fn number_of(kind: &TokenKind) -> i64
    requires { is_number_kind kind.now ≡ true }
    ensures { result ≡ kind_number kind.now }
{
    match kind {
        TokenKind::Number(number) => *number,
        _ => unreachable!(),
    }
}

/// Whether an operator of a class is of the tier, where a brace stands after it or not.
fn joins(in_predicate: bool, tier: Tier, class: Class, before_brace: bool) -> bool
    ensures { result ≡ joins in_predicate tier class before_brace }
{
    let ends_predicate = in_predicate && before_brace && is(Class::Operator(BinOp::Div), class);
    tier_of(class) == Some(tier) && !ends_predicate
}

/// The class where the test holds.
fn when(test: bool, class: Class) -> Option<Class>
    ensures { result ≡ when test class }
{
    if test { Some(class) } else { None }
}

impl<'a> Cursor<'a> {
    /// A cursor at the first of the tokens, which have these classes.
    pub fn new(rest: &'a [Token], classes: &'a [Class]) -> Cursor<'a>
        requires { classes.now ≡ classes_of rest.now }
        ensures { result ≡ rest.now }
    {
        Cursor { rest, classes }
    }

    /// How many tokens are left.
    pub fn left(&self) -> usize
        ensures { result ≡ length self.now }
    {
        self.rest.len()
    }

    /// The class of the next token.
    pub fn peek(&self) -> Option<Class>
        ensures class { result ≡ class_at (items self.now) }
        ensures some { IsSome result → 0 < length self.now }
    {
        match self.classes {
            [] => None,
            [class, ..] => Some(*class),
        }
    }

    /// Whether an opening brace stands behind the next token.
    fn is_before_brace(&self) -> bool
        ensures { result ≡ brace_next (rest_of (items self.now)) }
    {
        match self.classes {
            [_, class, ..] => is(Class::OpenBrace, *class),
            _ => false,
        }
    }

    /// Whether the next token is of the class.
    pub fn sees(&self, class: Class) -> bool
        ensures class { result ≡ starts (ends class) (items self.now) }
        ensures some { IsTrue result → 0 < length self.now }
    {
        match self.peek() {
            None => false,
            Some(next) => is(class, next),
        }
    }

    /// Whether the token behind the next one is of the class.
    fn sees_second(&self, expected: Class) -> bool
        ensures class { result ≡ starts (ends expected) (rest_of (items self.now)) }
        ensures some { IsTrue result → 1 < length self.now }
    {
        match self.classes {
            [_, class, ..] => is(expected, *class),
            _ => false,
        }
    }

    /// Whether `else` and `if` come next.
    pub fn sees_else_if(&self) -> bool
        ensures class { result ≡ is_else_if (items self.now) }
        ensures some { IsTrue result → 1 < length self.now }
    {
        self.sees(Class::ElseWord) && self.sees_second(Class::IfWord)
    }

    /// The class of the next token where it is a binary operator of the tier.
    pub fn operator(&self, in_predicate: bool, tier: Tier) -> Option<Class>
        ensures class { result ≡ operator_at in_predicate tier (items self.now) }
        ensures tier { IfSome result (λ class. IsSome (tier_of class)) }
        ensures some { IsSome result → 0 < length self.now }
    {
        match self.peek() {
            None => None,
            Some(class) => when(
                joins(in_predicate, tier, class, self.is_before_brace()),
                class,
            ),
        }
    }

    /// The operator before an operand that comes next.
    pub fn prefix(&self) -> Option<UnOp>
        ensures class { result ≡ prefix_at (items self.now) }
        ensures some { IsSome result → 0 < length self.now }
    {
        match self.peek() {
            Some(Class::Bang) => Some(UnOp::LogNot),
            Some(Class::Tilde) => Some(UnOp::BitNot),
            Some(Class::Operator(BinOp::Sub)) => Some(UnOp::Neg),
            _ => None,
        }
    }

    /// The builtin variable that comes next.
    pub fn builtin(&self) -> Option<Builtin>
        ensures class { result ≡ builtin_at (items self.now) }
        ensures some { IsSome result → 0 < length self.now }
    {
        match self.peek() {
            Some(Class::BuiltinWord(builtin)) => Some(builtin),
            _ => None,
        }
    }

    /// The operator of the mark with `=` that comes next.
    pub fn update(&self) -> Option<BinOp>
        ensures class { result ≡ update_at (items self.now) }
        ensures some { IsSome result → 0 < length self.now }
    {
        match self.peek() {
            Some(Class::UpdateMark(op)) if !compares(op) => Some(op),
            _ => None,
        }
    }

    /// The map function of one number whose word comes next.
    pub fn gathering(&self) -> Option<Gathering>
        ensures class { result ≡ gathering_at (items self.now) }
        ensures some { IsSome result → 0 < length self.now }
    {
        match self.peek() {
            Some(Class::GatherWord(gathering)) => Some(gathering),
            _ => None,
        }
    }

    /// The word that comes next where it begins a call or is a jump.
    pub fn call_word(&self) -> Option<Class>
        ensures class { result ≡ call_at (items self.now) }
        ensures call { IfSome result (λ class. is_call class ≡ true) }
        ensures some { IsSome result → 0 < length self.now }
    {
        match self.peek() {
            None => None,
            Some(class) => when(is_call(class), class),
        }
    }

    /// Whether a map function comes next.
    pub fn begins_aggregation(&self) -> bool
        ensures { result ≡ starts begins_aggregation (items self.now) }
    {
        matches!(
            self.peek(),
            Some(Class::CountWord | Class::LhistWord | Class::GatherWord(_))
        )
    }

    /// Whether a statement with blocks comes next.
    pub fn begins_control(&self) -> bool
        ensures { result ≡ starts begins_control (items self.now) }
    {
        matches!(
            self.peek(),
            Some(Class::IfWord | Class::WhileWord | Class::UnrollWord)
        )
    }

    /// Whether the step that comes next is `++` and not `--`.
    pub fn step(&self) -> Option<bool>
        ensures class { result ≡ step_at (items self.now) }
        ensures some { IsSome result → 0 < length self.now }
    {
        match self.peek() {
            Some(Class::Increment) => Some(true),
            Some(Class::Decrement) => Some(false),
            _ => None,
        }
    }

    /// Where the next token begins, which is there.
    pub fn place(&self) -> Place
        requires { 0 < length self.now }
        ensures { result ≡ front_place (items self.now) }
    {
        match self.rest {
            [] => unreachable!(),
            [token, ..] => token.place,
        }
    }

    /// Passes over the next token, which is there, and answers its place.
    pub fn skip(&mut self) -> Place
        requires { 0 < length self.old }
        ensures place { result ≡ front_place (items self.old) }
        ensures items { items self.new ≡ rest_of (items self.old) }
        ensures shorter { length self.new < length self.old }
    {
        let place = self.place();
        self.rest = &self.rest[1..];
        self.classes = &self.classes[1..];
        place
    }

    /// Passes over the next token, which is of the class, and answers its place.
    pub fn expect(&mut self, class: Class) -> Result<Place, Fault>
        ensures reads { Reads (read reads (mark class) (items self.old)) result self.new }
        ensures shorter { OnOk result (length self.new < length self.old) }
    {
        if self.sees(class) {
            Ok(self.skip())
        } else {
            Err(Fault::Syntax)
        }
    }

    /// Passes over the next token, which is of the class, and answers its bytes and its place. No number has bytes.
    pub fn named(&mut self, alloc: Global, class: Class) -> Result<Named, Fault>
        requires { is NumberLiteral class ≡ false }
        ensures reads { Reads (read reads (named_form class) (items self.old)) result self.new }
        ensures shorter { OnOk result (length self.new < length self.old) }
    {
        let [token, ..] = self.rest else {
            return Err(Fault::Syntax);
        };
        if !self.sees(class) {
            return Err(Fault::Syntax);
        }
        let bytes = Items::from_slice(alloc, bytes_of(&token.kind))?;
        let place = self.skip();
        Ok(Named { bytes, place })
    }

    /// Passes over the next token, which is a number, and answers it.
    pub fn number(&mut self) -> Result<i64, Fault>
        ensures reads { Reads (read reads a_number (items self.old)) result self.new }
        ensures shorter { OnOk result (length self.new < length self.old) }
    {
        let [token, ..] = self.rest else {
            return Err(Fault::Syntax);
        };
        if !self.sees(Class::NumberLiteral) {
            return Err(Fault::Syntax);
        }
        let number = number_of(&token.kind);
        self.skip();
        Ok(number)
    }

    /// Passes over the next token, which is a word of any class, and answers its bytes and its place.
    pub fn word(&mut self, alloc: Global) -> Result<Named, Fault>
        ensures reads { Reads (read reads word_form (items self.old)) result self.new }
        ensures shorter { OnOk result (length self.new < length self.old) }
    {
        let [token, ..] = self.rest else {
            return Err(Fault::Syntax);
        };
        let TokenKind::Word(word) = &token.kind else {
            return Err(Fault::Syntax);
        };
        let bytes = word.try_copy(alloc)?;
        let place = self.skip();
        Ok(Named { bytes, place })
    }

    /// Passes over the next token, which is what a probe is attached to, and answers that.
    pub fn point(&mut self, alloc: Global) -> Result<Point, Fault>
        ensures reads { Reads (read reads point_form (items self.old)) result self.new }
        ensures shorter { OnOk result (length self.new < length self.old) }
    {
        let [token, ..] = self.rest else {
            return Err(Fault::Syntax);
        };
        let class = self.classes[0];
        if !is_point(class) {
            return Err(Fault::Syntax);
        }
        let point = point_of(alloc, class, &token.kind, token.place)?;
        self.skip();
        Ok(point)
    }
}
