// The arguments that a format wants.
ghost use Rattle.std.specs.Prelude.{◌≡◌, [], ◌∷◌, ◌++◌, IfOk, OnOk, MatchOption};
ghost use Rattle.fmt_text.specs.Arguments.{argument_shapes, letter_shape, piece_shapes};

use crate::piece::Piece;
use bt_core::items::Items;
use bt_core::map::Shape;
use bt_core::memory::Memory;
use std::alloc::Global;

/// The type of the argument that a conversion with this letter wants.
fn letter_shape(letter: u8) -> Shape
    ensures { result ≡ letter_shape letter }
{
    if letter == b's' {
        Shape::Str
    } else {
        Shape::Int
    }
}

/// The type of the argument that a piece of a format wants: a string for `%s`, and a whole number for
/// every other conversion. `None` for bytes that stand for themselves, which want no argument. Takes no
/// memory.
pub fn piece_shape(piece: &Piece) -> Option<Shape>
    ensures { MatchOption result (piece_shapes piece.now ≡ []) (λ shape. piece_shapes piece.now ≡ shape ∷ []) }
{
    match piece {
        Piece::Literal(_) => None,
        Piece::Conversion { letter, .. } => Some(letter_shape(*letter)),
    }
}

/// Adds the type of the argument that a piece wants, if it wants one.
fn add_shape(shapes: &mut Items<Shape>, piece: &Piece) -> Result<(), Memory>
    ensures { OnOk result (shapes.new ≡ shapes.old ++ piece_shapes piece.now) }
{
    match piece_shape(piece) {
        None => Ok(()),
        Some(shape) => shapes.push(shape),
    }
}

/// The types of the arguments that a format with these pieces wants, one for each conversion in their
/// order, as of [`piece_shape`].
///
/// # Errors
///
/// [`Memory`] may come at any pieces.
pub fn argument_shapes(alloc: Global, pieces: &[Piece]) -> Result<Items<Shape>, Memory>
    ensures { IfOk result (λ shapes. shapes ≡ argument_shapes pieces.now) }
{
    let mut shapes = Items::new(alloc);
    for piece in pieces {
        add_shape(&mut shapes, piece)?;
    }
    Ok(shapes)
}
