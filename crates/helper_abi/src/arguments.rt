// The arguments of a format in memory, by its pieces alone: no list of their shapes is made.
ghost use Rattle.std.specs.Prelude.{◌≡◌, ◌<◌, ◌^◌, length, None, Err, IfOk, IfSome, MatchOption};
ghost use Rattle.bt_core.specs.Kinds.{HasShape};
ghost use Rattle.bpf_interp.specs.declared.helper_calls.HelperFault.TheVariants.{Address};
ghost use Rattle.fmt_text.specs.Arguments.{argument_shapes};
ghost use Rattle.helper_abi.specs.Reading.{bytes_of_shapes, values_in, values_at};
ghost use Rattle.helper_abi.specs.Served.{Reads};

use crate::reading::{bytes_at, longest_region, shape_bytes, value_in};
use bpf_interp::helper_calls::HelperFault;
use bpf_interp::regions::Regions;
use bt_core::items::Items;
use bt_core::memory::Memory;
use bt_core::value::Value;
use fmt_text::arguments::piece_shape;
use fmt_text::piece::Piece;
use std::alloc::Global;

// How many arguments a format wants, and their bytes.
#[derive(Clone, Copy)]
struct Room {
    count: usize,
    bytes: u64,
}

// The room of the arguments that a format with these pieces wants, where they have at most so many bytes.
fn argument_room(pieces: &[Piece], most: u64) -> Option<Room>
    requires { most < 2 ^ 32 }
    ensures count { IfSome result (λ room. room.count ≡ length (argument_shapes pieces.now)) }
    ensures bytes { MatchOption result (most < bytes_of_shapes (argument_shapes pieces.now))
        (λ room. room.bytes ≡ bytes_of_shapes (argument_shapes pieces.now)) }
{
    let mut count = 0;
    let mut bytes = 0;
    for piece in pieces {
        let Some(shape) = piece_shape(piece) else {
            continue;
        };
        count += 1;
        bytes += shape_bytes(shape);
        if bytes > most {
            return None;
        }
    }
    Some(Room { count, bytes })
}

// The arguments in their bytes, one behind the other. The memory for so many is asked for once.
fn arguments_in(
    alloc: Global,
    count: usize,
    pieces: &[Piece],
    bytes: &[u8],
) -> Result<Items<Value>, Memory>
    requires { length bytes.now ≡ bytes_of_shapes (argument_shapes pieces.now) }
    ensures { IfOk result (λ values. values ≡ values_in (argument_shapes pieces.now) bytes.now) }
{
    let mut values = Items::of(Vec::with_capacity(alloc, count)?);
    let mut rest = bytes;
    for piece in pieces {
        let Some(shape) = piece_shape(piece) else {
            continue;
        };
        let parts = rest.split_at(shape_bytes(shape) as usize);
        values.push(value_in(shape, parts.0))?;
        rest = parts.1;
    }
    Ok(values)
}

/// The arguments at an address that a format with these pieces wants, one for each conversion in their
/// order. Memory is asked for once, and not where no argument is wanted.
///
/// # Errors
///
/// `HelperFault::Address` where their bytes do not lie wholly inside one region, and want of memory.
pub fn arguments_at(
    alloc: Global,
    memory: &Regions,
    pieces: &[Piece],
    address: u64,
) -> Result<Items<Value>, HelperFault>
    ensures read { Reads (values_at memory.now (argument_shapes pieces.now) address) result }
    ensures outside { values_at memory.now (argument_shapes pieces.now) address ≡ None → result ≡ Err Address }
    ensures shaped { IfOk result (λ values. HasShape (argument_shapes pieces.now) values) }
{
    let Some(room) = argument_room(pieces, longest_region(memory)) else {
        return Err(HelperFault::Address);
    };
    let Some(bytes) = bytes_at(memory, address, room.bytes) else {
        return Err(HelperFault::Address);
    };
    match arguments_in(alloc, room.count, pieces, bytes) {
        Ok(values) => Ok(values),
        Err(want) => Err(HelperFault::Memory(want)),
    }
}
