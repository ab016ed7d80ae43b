// How deep tokens are nested.
ghost use Rattle.std.specs.Prelude.{◌≡◌, ◌∷◌, [], ◌≤◌, ◌<◌, IfOk, IfSome, OnOk, length};
ghost use Rattle.bt_parser.specs.Levels.{IsWeighed, deep_from, levels_of};
ghost use Rattle.bt_grammar.specs.Weights.{closed, counted, is_operator, levels_behind, opened, reset};

use bt_core::limits::NESTING;
use bt_core::memory::Memory;
use bt_grammar::class::Class;
use std::alloc::Global;

/// The most brackets and operators that may be open at one token.
const MOST_WEIGHT: u64 = NESTING as u64;

/// The counts of operators in the levels that are open.
#[derive(Drop)]
pub struct Levels {
    /// The count of the innermost level.
    pub inner: u64,
    /// The counts of the levels around it, the outermost first.
    pub around: Vec<u64>,
    /// How many brackets are open, and all the counts.
    pub weight: u64,
}

/// Whether a mark counts: it is neither a brace or bracket nor `,`, `;`, `.`, `->` or `:`.
fn is_operator(class: Class) -> bool
    ensures { result ≡ is_operator class }
{
    matches!(
        class,
        Class::Operator(_)
            | Class::UpdateMark(_)
            | Class::Increment
            | Class::Decrement
            | Class::AndAnd
            | Class::OrOr
            | Class::Assign
            | Class::Tilde
            | Class::Bang
            | Class::Question
    )
}

impl Levels {
    /// The outermost level alone.
    fn new(alloc: Global) -> Levels
        ensures levels { levels_of result ≡ 0 ∷ [] }
        ensures weighed { IsWeighed result }
        ensures light { result.weight ≤ NESTING }
    {
        Levels {
            inner: 0,
            around: Vec::new(alloc),
            weight: 0,
        }
    }

    /// Opens a level.
    fn open(&mut self) -> Result<(), Memory>
        requires weighed { IsWeighed self.old }
        requires light { self.old.weight ≤ NESTING }
        ensures levels { OnOk result (levels_of self.new ≡ opened (levels_of self.old)) }
        ensures weighed { OnOk result (IsWeighed self.new) }
    {
        self.around.push(self.inner)?;
        self.inner = 0;
        self.weight += 1;
        Ok(())
    }

    /// Closes the innermost level, if another stands around it.
    fn close(&mut self)
        requires weighed { IsWeighed self.old }
        ensures levels { levels_of self.new ≡ closed (levels_of self.old) }
        ensures weighed { IsWeighed self.new }
    {
        if let Some(count) = self.around.pop() {
            self.weight -= self.inner;
            self.weight -= 1;
            self.inner = count;
        }
    }

    /// Begins the innermost count anew.
    fn reset(&mut self)
        requires weighed { IsWeighed self.old }
        ensures levels { levels_of self.new ≡ reset (levels_of self.old) }
        ensures weighed { IsWeighed self.new }
        ensures lighter { self.new.weight ≤ self.old.weight }
    {
        self.weight -= self.inner;
        self.inner = 0;
    }

    /// Counts an operator.
    fn count(&mut self)
        requires weighed { IsWeighed self.old }
        requires light { self.old.weight ≤ NESTING }
        ensures levels { levels_of self.new ≡ counted (levels_of self.old) }
        ensures weighed { IsWeighed self.new }
    {
        self.inner += 1;
        self.weight += 1;
    }

    /// Passes over a token.
    fn pass(&mut self, class: Class) -> Result<(), Memory>
        requires weighed { IsWeighed self.old }
        requires light { self.old.weight ≤ NESTING }
        ensures levels { OnOk result (levels_of self.new ≡ levels_behind class (levels_of self.old)) }
        ensures weighed { OnOk result (IsWeighed self.new) }
    {
        match class {
            Class::OpenBrace => {
                self.reset();
                return self.open();
            }
            Class::CloseBrace => {
                self.close();
                self.reset();
            }
            Class::OpenParen | Class::OpenBracket => return self.open(),
            Class::CloseParen | Class::CloseBracket => self.close(),
            Class::Comma | Class::Semicolon => self.reset(),
            _ => {
                if is_operator(class) {
                    self.count();
                }
            }
        }
        Ok(())
    }
}

/// The place of the first of these classes of tokens behind which more than 64 brackets and operators are open.
pub fn first_too_deep(alloc: Global, classes: &[Class]) -> Result<Option<usize>, Memory>
    ensures value { IfOk result (λ found. found ≡ deep_from 0 (0 ∷ []) classes.now) }
    ensures within { IfOk result (λ found. IfSome found (λ place. place < length classes.now)) }
{
    let mut levels = Levels::new(alloc);
    for (i, class) in classes.iter().enumerate() {
        levels.pass(*class)?;
        if levels.weight > MOST_WEIGHT {
            return Ok(Some(i));
        }
    }
    Ok(None)
}
