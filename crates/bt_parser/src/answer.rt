// What is made of the answer of a function that reads: what was read, or why it was not.
ghost use Rattle.std.specs.Prelude.{ℕ, ◌<◌, ◌≤◌, OnOk, length};
ghost use Rattle.bt_grammar.specs.Reading.{Out};
ghost use Rattle.bt_grammar.specs.Tokens.{items};
ghost use Rattle.bt_parser.specs.Contract.{Adds, Reads, behind};

use crate::cursor::Cursor;
use crate::fault::Fault;
use bt_core::items::Items;
use bt_grammar::class::Class;

/// A list with what was read behind it. It is let go where nothing was.
///
/// A function that reads a list calls it, so that the list is let go in one place.
pub fn added<T: Drop>(list: Items<T>, answer: Result<T, Fault>) -> Result<Items<T>, Fault>
    ensures { Adds list answer result }
{
    let mut longer = list;
    longer.push(answer?)?;
    Ok(longer)
}

/// What was read, where the next token is of the class, which is passed over. It is let go where the token is another.
pub fn until<T: Drop>(
    tokens: &mut Cursor<'_>,
    answer: Result<T, Fault>,
    class: Class,
) -> Result<T, Fault>
    ensures reads { (out : Out T) → Reads out answer tokens.old → Reads (behind class out) result tokens.new }
    ensures shorter { (most : ℕ) → OnOk answer (length tokens.old ≤ most) → OnOk result (length tokens.new < most) }
{
    let value = answer?;
    tokens.expect(class)?;
    Ok(value)
}
