// The lines of a text, one after the other.
ghost use Rattle.std.specs.Prelude.{◌≡◌, ◌∷◌, [], drop, slice_index_or, MatchOption};
ghost use Rattle.event_layout.specs.Lines.{text_lines};

use crate::bytes::{ByteClass, cut_at, without_end};
use std::marker::Model;

/// The lines that are left of a text, without the blanks and carriage returns at their ends.
///
/// Contracts see the list of these lines.
#[derive(Drop)]
pub struct Lines<'a> {
    rest: Option<&'a [u8]>,
}

impl<'a> Model for Lines<'a> {
    ghost use Rattle.std.specs.Prelude.{List, ℕ};
    ghost use Rattle.std.specs.Option.{option_copied};
    ghost use Rattle.event_layout.specs.Lines.{lines_left};

    ghost Value = { List (List ℕ) };

    ghost view = { λ s. lines_left (option_copied s.rest) };
}

impl<'a> Lines<'a> {
    /// The lines of a text.
    pub fn of(text: &'a [u8]) -> Lines<'a>
        ensures { result ≡ text_lines text.now }
    {
        Lines { rest: Some(text) }
    }

    /// The next line, or `None` after the last.
    pub fn next(&mut self) -> Option<&'a [u8]>
        ensures { MatchOption result ((self.old ≡ []) × (self.new ≡ [])) (λ line. self.old ≡ line.now ∷ self.new) }
    {
        match self.rest {
            None => None,
            Some(text) => match cut_at(text, b'\n') {
                Some((line, rest)) => {
                    self.rest = Some(rest);
                    Some(without_end(line, ByteClass::LineEnd))
                }
                None => {
                    self.rest = None;
                    Some(without_end(text, ByteClass::LineEnd))
                }
            },
        }
    }

    /// The next line, or an empty one after the last.
    pub fn next_or_empty(&mut self) -> &'a [u8]
        ensures line { result.now ≡ slice_index_or self.old 0 [] }
        ensures rest { self.new ≡ drop 1 self.old }
    {
        match self.next() {
            Some(line) => line,
            None => &[],
        }
    }
}
