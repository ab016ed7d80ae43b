// Lines and columns of offsets.
ghost use Rattle.std.specs.Prelude.{◌≡◌, ◌+◌, ◌≤◌, ◌<◌, ◌^◌, length, take};
ghost use Rattle.bt_lexer.specs.Places.{line_behind, column_behind};

use crate::position::Position;
use bt_core::place::Place;

/// The line and column of an offset in bytes, which may be that of the end of the text.
#[tactic(auto, using(crate::proofs::PositionLaws::position_of))]
pub fn line_column(text: &[u8], offset: usize) -> Place
    requires within { offset ≤ length text.now }
    requires short { length text.now + 1 < 2 ^ 32 }
    ensures line { result.line ≡ line_behind (take offset text.now) }
    ensures column { result.column ≡ column_behind (take offset text.now) }
{
    let (before, _) = text.split_at(offset);
    let position = Position::start().after(before);
    Place {
        line: position.line as u32,
        column: position.column as u32,
    }
}
