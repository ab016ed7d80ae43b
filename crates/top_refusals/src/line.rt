// Lines that are written piece by piece. They take no memory.
ghost use Rattle.std.specs.Prelude.{◌≡◌, ◌≤◌, map, OnOk, OnErr};
ghost use Rattle.std.specs.Io.KnownBytes.{Appends};
ghost use Rattle.bt_io.specs.Faults.{Rose};
ghost use Rattle.bt_io.specs.Taken.{AppendsPart};
ghost use Rattle.top_refusals.specs.Lines.{piece_bytes, line_bytes, piece_by, Writes, sink_use};

use bt_io::sink::{Sink, SinkFailed, write_all};
use itoa::Buffer;

/// A part of a line: a text, or a number in decimal digits.
#[derive(Clone, Copy)]
pub(crate) enum Piece<'t> {
    Text(&'t str),
    Number(u64),
}

/// Writes a piece, or a prefix of it where the sink fails.
fn write_piece<E: Sink>(err: &mut E, piece: &Piece<'_>) -> Result<(), SinkFailed>
    ensures whole { OnOk result (Appends (E.taken err.old) (E.taken err.new) (piece_bytes (piece_by piece.now))) }
    ensures part { OnErr result (AppendsPart (E.taken err.old) (E.taken err.new) (piece_bytes (piece_by piece.now))) }
    ensures failed { OnErr result (Rose (E.faults err.old) (E.faults err.new)) }
    ensures later { E.faults err.old ≤ E.faults err.new }
{
    match piece {
        Piece::Text(text) => write_all(err, text.as_bytes()),
        Piece::Number(value) => {
            let mut buffer = Buffer::new();
            write_all(err, buffer.format(*value).as_bytes())
        }
    }
}

/// Writes pieces and a newline, or a prefix of both where the sink fails.
pub(crate) fn write_pieces<E: Sink>(err: &mut E, pieces: &[Piece<'_>]) -> Result<(), SinkFailed>
    ensures whole { OnOk result (Appends (E.taken err.old) (E.taken err.new) (line_bytes (map piece_by pieces.now))) }
    ensures part { OnErr result (AppendsPart (E.taken err.old) (E.taken err.new) (line_bytes (map piece_by pieces.now))) }
    ensures failed { OnErr result (Rose (E.faults err.old) (E.faults err.new)) }
{
    for piece in pieces {
        write_piece(err, piece)?;
    }
    write_all(err, b"\n")
}

/// Writes the line of these pieces, or a prefix of it where the sink fails.
pub(crate) fn write_line<E: Sink>(err: &mut E, pieces: &[Piece<'_>])
    ensures { Writes (sink_use E.taken E.faults err.old err.new) (map piece_by pieces.now) }
{
    let _ = write_pieces(err, pieces);
}
