// Pieces that are being read.
ghost use Rattle.std.specs.Prelude.{◌≡◌, [], ◌∷◌, List, IfOk, OnOk};
ghost use Rattle.fmt_text.specs.declared.piece.Piece.{Piece as PieceValue};
ghost use Rattle.fmt_text.specs.Formats.{joined};
ghost use Rattle.fmt_text.specs.Reading.{front_piece, going_on};

use crate::conversion::{Converted, Front};
use crate::piece::Piece;
use bt_core::items::Items;
use bt_core::memory::Memory;
use std::alloc::Global;
use std::mem;

/// The pieces that were read, and behind them the bytes of a literal that may go on.
#[derive(Drop)]
pub(crate) struct Pieces {
    done: Items<Piece>,
    literal: Items<u8>,
}

impl Converted {
    fn piece(self) -> Piece
        ensures { result ≡ PieceValue.Conversion self.left self.zero self.width self.letter }
    {
        Piece::Conversion {
            left: self.left,
            zero: self.zero,
            width: self.width,
            letter: self.letter,
        }
    }
}

impl Pieces {
    pub fn new(alloc: Global) -> Pieces
        ensures { (pieces : List PieceValue) → going_on result.done result.literal pieces ≡ pieces }
    {
        Pieces {
            done: Items::new(alloc),
            literal: Items::new(alloc),
        }
    }

    /// All pieces. The literal is the last one, if it has bytes.
    pub fn close(self) -> Result<Items<Piece>, Memory>
        ensures { IfOk result (λ pieces. pieces ≡ going_on self.done self.literal []) }
    {
        let Pieces { mut done, literal } = self;
        if !literal.is_empty() {
            done.push(Piece::Literal(literal))?;
        }
        Ok(done)
    }

    /// Adds what stands at the front of the bytes that are read.
    pub fn add(&mut self, alloc: Global, front: Front) -> Result<(), Memory>
        ensures { OnOk result ((pieces : List PieceValue) →
            going_on self.new.done self.new.literal pieces ≡ going_on self.old.done self.old.literal (joined (front_piece front) pieces)) }
    {
        match front {
            Front::Byte(byte) => self.literal.push(byte),
            Front::Conversion(conversion) => {
                let literal = mem::replace(&mut self.literal, Items::new(alloc));
                if !literal.is_empty() {
                    self.done.push(Piece::Literal(literal))?;
                }
                self.done.push(conversion.piece())
            }
        }
    }
}
