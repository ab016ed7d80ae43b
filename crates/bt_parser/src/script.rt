// The probes of a script, and how many there may be.
ghost use Rattle.std.specs.Prelude.{◌≡◌, ◌≤◌, IfOk, OnOk, length};
ghost use Rattle.bt_grammar.specs.Classes.{is_point};
ghost use Rattle.bt_parser.specs.Outcomes.{Ends, Gives, another};
ghost use Rattle.bt_grammar.specs.Reading.{starts};
ghost use Rattle.bt_grammar.specs.Tokens.{items};

use crate::answer::added;
use crate::cursor::Cursor;
use crate::fault::Fault;
use crate::probe::probe;
use crate::tables::is_point;
use bt_ast::probe::Probe;
use bt_core::items::Items;
use bt_core::limits::PROBES;
use bt_core::memory::Memory;
use std::alloc::Global;

/// The most probes of a script.
const MOST_PROBES: usize = PROBES as usize;

/// What reading a script comes to.
#[derive(Drop)]
pub enum Outcome {
    /// The tokens are these probes.
    Whole(Items<Probe>),
    /// No script goes on with the token at which the cursor stands, or ends where no token is left.
    Refused,
    /// As many probes were read as there may be, and another begins where the cursor stands.
    Full,
}

/// Whether the next token begins a probe.
fn begins_probe(tokens: &Cursor<'_>) -> bool
    ensures { result ≡ starts (λ c _. is_point c) (items tokens.now) }
{
    match tokens.peek() {
        None => false,
        Some(class) => is_point(class),
    }
}

/// Whether another probe is to be read behind these: the first one always, and one of which the first token is there.
fn another(probes: &Items<Probe>, tokens: &Cursor<'_>) -> bool
    ensures { result ≡ another probes.now (items tokens.now) }
{
    probes.is_empty() || begins_probe(tokens)
}

/// The probes of all tokens that are left, or why they are no script.
fn probes(alloc: Global, tokens: &mut Cursor<'_>) -> Result<Outcome, Fault>
    ensures outcome { Ends tokens.old tokens.new result }
    ensures no_longer { OnOk result (length tokens.new ≤ length tokens.old) }
{
    let mut probes = Items::new(alloc);
    while another(&probes, tokens) {
        if probes.len() == MOST_PROBES {
            return Ok(Outcome::Full);
        }
        probes = added(probes, probe(alloc, tokens))?;
    }
    if tokens.left() == 0 {
        Ok(Outcome::Whole(probes))
    } else {
        Ok(Outcome::Refused)
    }
}

/// The probes of all tokens that are left, or why they are no script.
pub fn script(alloc: Global, tokens: &mut Cursor<'_>) -> Result<Outcome, Memory>
    ensures outcome { IfOk result (λ outcome. Gives tokens.old tokens.new outcome) }
    ensures no_longer { IfOk result (λ _. length tokens.new ≤ length tokens.old) }
{
    match probes(alloc, tokens) {
        Ok(outcome) => Ok(outcome),
        Err(Fault::Syntax) => Ok(Outcome::Refused),
        Err(Fault::OutOfMemory(memory)) => Err(memory),
    }
}
