// What calls of helpers want of what is known of R1, R2 and R3.
ghost use Rattle.std.specs.Prelude.{◌≡◌, ◌≤◌, length, option_copied};
ghost use Rattle.fmt_text.specs.Arguments.{argument_shapes, piece_shapes};
ghost use Rattle.helper_abi.specs.Reading.{shape_bytes, bytes_of_shapes};
ghost use Rattle.bpf_check.specs.Reading.{number_in};
ghost use Rattle.bpf_check.specs.Calls.{at_frame, at_results, known_at, known_value_map, known_table_map, known_summed_map};
ghost use Rattle.bpf_check.specs.Calls.{held_bytes, in_bounds, at_some_frame, is_key, get_fits, set_fits, delete_fits};
ghost use Rattle.bpf_check.specs.Calls.{add_fits, sum_fits, print_fits, printf_fits, is_line, read_fits, helper_fits, call_fits};

use crate::effect::{lies_in, may_store, number_in, set_known};
use crate::known::{Known, Seen, known_of};
use bpf_insn::address::FRAME;
use bt_core::items::Items;
use bt_core::limits::FRAME_BYTES;
use bt_core::map::{MapDecl, MapKind, Shape};
use fmt_text::piece::Piece;
use helper_abi::helper::Helper;
use typed_tree::kind::is_summed_kind;
use typed_tree::script::Typed;

// ---- bytes

fn shape_bytes(shape: Shape) -> u64
    ensures value { result ≡ shape_bytes shape }
    ensures few { result ≤ 64 }
{
    match shape {
        Shape::Int => 8,
        Shape::Str => 64,
    }
}

// The bytes of a value that a map holds.
fn held_bytes(decl: &MapDecl) -> u64
    ensures { result ≡ held_bytes decl.now }
{
    match decl.kind {
        MapKind::Strs => 64,
        _ => 8,
    }
}

// The bytes of values, where the frame may have them.
#[tactic(auto, using(crate::proofs::Counting::shapes_more, crate::proofs::Counting::in_bounds_small, crate::proofs::Counting::in_bounds_large))]
fn bytes_of_shapes(shapes: &[Shape]) -> Option<u64>
    ensures { result ≡ in_bounds (bytes_of_shapes shapes.now) }
{
    let mut total = 0;
    for shape in shapes {
        total += shape_bytes(*shape);
        if total > FRAME_BYTES {
            return None;
        }
    }
    Some(total)
}

// The bytes of the argument that a piece of a format wants, if it wants one.
fn piece_bytes(piece: &Piece) -> u64
    ensures value { result ≡ bytes_of_shapes (piece_shapes piece.now) }
    ensures few { result ≤ 64 }
{
    match piece {
        Piece::Literal(_) => 0,
        Piece::Conversion { letter, .. } => { if *letter == b's' { 64 } else { 8 } }
    }
}

// The bytes of the arguments that a format wants, where the frame may have them.
#[tactic(auto, using(crate::proofs::Counting::pieces_more, crate::proofs::Counting::in_bounds_small, crate::proofs::Counting::in_bounds_large))]
fn argument_bytes(pieces: &[Piece]) -> Option<u64>
    ensures { result ≡ in_bounds (bytes_of_shapes (argument_shapes pieces.now)) }
{
    let mut total = 0;
    for piece in pieces {
        total += piece_bytes(piece);
        if total > FRAME_BYTES {
            return None;
        }
    }
    Some(total)
}

// ---- addresses

// Whether a register holds the address of so many bytes of the frame.
fn at_frame(known: Known, count: u64) -> bool
    ensures { result ≡ at_frame known count }
{
    match number_in(known) {
        None => false,
        Some(address) => lies_in(FRAME, FRAME_BYTES, address, count),
    }
}

fn at_some_frame(known: Known, count: Option<u64>) -> bool
    ensures { result ≡ at_some_frame known count }
{
    match count {
        None => false,
        Some(count) => at_frame(known, count),
    }
}

// Whether it holds the address of so many bytes of the frame before the count of turns.
fn at_results(known: Known, count: u64) -> bool
    ensures { result ≡ at_results known count }
{
    match number_in(known) {
        None => false,
        Some(address) => may_store(address, count),
    }
}

// Whether it holds the address of a key of a map.
fn is_key(decl: &MapDecl, key: Known) -> bool
    ensures { result ≡ is_key decl.now key }
{
    at_some_frame(key, bytes_of_shapes(decl.key_shape.as_slice()))
}

// ---- maps and formats

// What has the number that a register holds in a list.
fn known_at<T>(list: &[T], known: Known) -> Option<&T>
    ensures { option_copied result ≡ known_at list.now known }
{
    let number = number_in(known)?;
    if number < 0x1_0000_0000 {
        list.get(number as usize)
    } else {
        None
    }
}

// The map of that number where it holds whole numbers or strings.
fn known_value_map(maps: &[MapDecl], known: Known) -> Option<&MapDecl>
    ensures { option_copied result ≡ known_value_map maps.now known }
{
    let decl = known_at(maps, known)?;
    match decl.kind {
        MapKind::Aggs(_) => None,
        _ => Some(decl),
    }
}

// The map of that number where it gathers numbers.
fn known_table_map(maps: &[MapDecl], known: Known) -> Option<&MapDecl>
    ensures { option_copied result ≡ known_table_map maps.now known }
{
    let decl = known_at(maps, known)?;
    match decl.kind {
        MapKind::Aggs(_) => Some(decl),
        _ => None,
    }
}

// The map of that number where it gathers numbers into one.
fn known_summed_map(maps: &[MapDecl], known: Known) -> Option<&MapDecl>
    ensures { option_copied result ≡ known_summed_map maps.now known }
{
    let decl = known_at(maps, known)?;
    if is_summed_kind(decl.kind) {
        Some(decl)
    } else {
        None
    }
}

// ---- each helper's arguments

fn get_fits(map: Option<&MapDecl>, key: Known, to: Known) -> bool
    ensures { result ≡ get_fits (option_copied map.entry) key to }
{
    match map {
        None => false,
        Some(decl) => is_key(decl, key) && at_results(to, held_bytes(decl)),
    }
}

fn set_fits(map: Option<&MapDecl>, key: Known, value: Known) -> bool
    ensures { result ≡ set_fits (option_copied map.entry) key value }
{
    match map {
        None => false,
        Some(decl) => is_key(decl, key) && at_frame(value, held_bytes(decl)),
    }
}

fn delete_fits(map: Option<&MapDecl>, key: Known) -> bool
    ensures { result ≡ delete_fits (option_copied map.entry) key }
{
    match map {
        None => false,
        Some(decl) => is_key(decl, key),
    }
}

fn add_fits(map: Option<&MapDecl>, key: Known, number: Known) -> bool
    ensures { result ≡ add_fits (option_copied map.entry) key number }
{
    match map {
        None => false,
        Some(decl) => is_key(decl, key) && set_known(number).is_some(),
    }
}

fn sum_fits(map: Option<&MapDecl>, key: Known, to: Known) -> bool
    ensures { result ≡ sum_fits (option_copied map.entry) key to }
{
    match map {
        None => false,
        Some(decl) => is_key(decl, key) && at_results(to, 8),
    }
}

// At least 0 rows are kept, and the values divided by at least 1.
fn print_fits(map: Option<&MapDecl>, top: Known, div: Known) -> bool
    ensures { result ≡ print_fits (option_copied map.entry) top div }
{
    match (map, number_in(top), number_in(div)) {
        (Some(_), Some(top), Some(div)) => 0 <= top.cast_signed() && 1 <= div.cast_signed(),
        _ => false,
    }
}

fn printf_fits(format: Option<&Items<Piece>>, values: Known) -> bool
    ensures { result ≡ printf_fits (option_copied format.entry) values }
{
    match format {
        None => false,
        Some(pieces) => at_some_frame(values, argument_bytes(pieces.as_slice())),
    }
}

fn is_line(known: Known) -> bool
    ensures { result ≡ is_line (number_in known) }
{
    match number_in(known) {
        None => false,
        Some(line) => line < 0x1_0000_0000,
    }
}

fn read_fits(to: Known, place: Known, count: Known) -> bool
    ensures { result ≡ read_fits to place count }
{
    at_results(to, 64) && set_known(place).is_some() && set_known(count).is_some()
}

fn helper_fits(typed: &Typed, a: Known, b: Known, c: Known, helper: Helper) -> bool
    ensures { result ≡ helper_fits typed.now.maps typed.now.formats a b c helper }
{
    let maps = typed.maps.as_slice();
    match helper {
        Helper::Get => get_fits(known_value_map(maps, a), b, c),
        Helper::Set => set_fits(known_value_map(maps, a), b, c),
        Helper::Delete => delete_fits(known_value_map(maps, a), b),
        Helper::Aggregate => add_fits(known_table_map(maps, a), b, c),
        Helper::Print => print_fits(known_at(maps, a), b, c),
        Helper::Clear | Helper::Zero => known_at(maps, a).is_some(),
        Helper::Printf => printf_fits(known_at(typed.formats.as_slice(), a), b),
        Helper::Exit => true,
        Helper::Cut => is_line(a),
        Helper::ReadStr => read_fits(a, b, c),
        Helper::ReadAgg => sum_fits(known_summed_map(maps, a), b, c),
    }
}

/// Whether a call of a helper finds what it wants: a helper of this number, a map or a format of the
/// script by a known number, and addresses of as many bytes of the frame as are read or written there.
/// What is written lies before the count of turns.
pub fn call_fits(typed: &Typed, number: u32, seen: &Seen) -> bool
    ensures { result ≡ call_fits typed.now.maps typed.now.formats number seen.now }
{
    match Helper::at(number) {
        None => false,
        Some(helper) => {
            let (a, b, c) = (known_of(seen, 1), known_of(seen, 2), known_of(seen, 3));
            helper_fits(typed, a, b, c, helper)
        }
    }
}
