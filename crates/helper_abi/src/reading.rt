// The values that helpers read, and the bytes that they write.
ghost use Rattle.std.specs.Prelude.{◌≡◌, ◌∷◌, [], ◌<◌, ◌≤◌, ◌*◌, ◌^◌, length, max, None, Some, Err, IfOk, IfSome, IsTrue, MatchOption};
ghost use Rattle.bt_core.specs.declared.limits.TheConstants.{FRAME_BYTES, KEY_PARTS as MOST_PARTS};
ghost use Rattle.bt_core.specs.declared.value.Value.TheVariants as variants;
ghost use Rattle.bt_core.specs.Kinds.{HasShape, IsOfShape};
ghost use Rattle.bt_core.specs.KeyBytes.{value_bytes};
ghost use Rattle.bpf_insn.specs.Regions.{bytes_in, is_in_frame, stored};
ghost use Rattle.bpf_interp.specs.declared.helper_calls.HelperFault.TheVariants.{Address};
ghost use Rattle.helper_abi.specs.Reading.{shape_bytes, bytes_of_shapes, value_in, values_in, bytes_at, values_at, value_at, shape_of_kind, payload_text};
ghost use Rattle.helper_abi.specs.Served.{Reads};
ghost use Rattle.helper_abi.specs.Writing.{room_of};

use bpf_interp::helper_calls::HelperFault;
use bpf_interp::regions::Regions;
use bt_core::items::Items;
use bt_core::key::Key;
use bt_core::limits::FRAME_BYTES;
use bt_core::map::{MapKind, Shape};
use bt_core::memory::Memory;
use bt_core::text::Str64;
use bt_core::value::Value;
use std::alloc::Global;

/// Bytes of a string in memory.
pub const TEXT_BYTES: usize = 64;

/// Bytes of a value.
pub fn shape_bytes(shape: Shape) -> u64
    ensures value { result ≡ shape_bytes shape }
    ensures some { 8 ≤ result }
    ensures few { result ≤ 64 }
{
    match shape {
        Shape::Int => 8,
        Shape::Str => 64,
    }
}

// Bytes of values, of which there are fewer than 2^33.
fn bytes_of_shapes(shapes: &[Shape]) -> u64
    requires { length shapes.now < 2 ^ 33 }
    ensures { result ≡ bytes_of_shapes shapes.now }
{
    let mut total = 0;
    for shape in shapes {
        total += shape_bytes(*shape);
    }
    total
}

/// What a map holds under a key that is no aggregation.
pub fn shape_of_kind(kind: MapKind) -> Shape
    ensures { result ≡ shape_of_kind kind }
{
    match kind {
        MapKind::Strs => Shape::Str,
        MapKind::Ints => Shape::Int,
        MapKind::Aggs(_) => Shape::Int,
    }
}

// The value in its bytes.
#[inline(always)]
pub(crate) fn value_in(shape: Shape, bytes: &[u8]) -> Value
    requires { length bytes.now ≡ shape_bytes shape }
    ensures value { result ≡ value_in shape bytes.now }
    ensures shaped { IsOfShape shape result }
{
    match shape {
        Shape::Int => {
            let mut eight = [0; 8];
            eight.copy_from_slice(bytes);
            Value::Int(i64::from_le_bytes(eight))
        }
        Shape::Str => Value::Str(Str64::of(bytes)),
    }
}

// The values in their bytes, one behind the other.
fn values_in(alloc: Global, shapes: &[Shape], bytes: &[u8]) -> Result<Items<Value>, Memory>
    requires { length bytes.now ≡ bytes_of_shapes shapes.now }
    ensures { IfOk result (λ values. values ≡ values_in shapes.now bytes.now) }
{
    let mut values = Items::new(alloc);
    let mut rest = bytes;
    for shape in shapes {
        let parts = rest.split_at(shape_bytes(*shape) as usize);
        values.push(value_in(*shape, parts.0))?;
        rest = parts.1;
    }
    Ok(values)
}

// Bytes of the longest region.
pub(crate) fn longest_region(memory: &Regions) -> u64
    ensures value { result ≡ max (length memory.now.payload) FRAME_BYTES }
    ensures few { result < 2 ^ 32 }
{
    (memory.payload().len() as u64).max(FRAME_BYTES)
}

// So many bytes at an address, where they lie wholly inside one region; none are anywhere.
pub(crate) fn bytes_at<'a>(memory: &'a Regions, address: u64, count: u64) -> Option<&'a [u8]>
    ensures exact { MatchOption result (bytes_at memory.now address count ≡ None) (λ bytes. bytes_at memory.now address count ≡ Some bytes.now) }
    ensures long { IfSome result (λ bytes. length bytes.now ≡ count) }
{
    if count == 0 {
        return Some(&[]);
    }
    memory.bytes(address, count)
}

// The bytes of values at an address. Each value has a byte at least, so that no region has more values
// than bytes.
fn value_bytes_at<'a>(memory: &'a Regions, shapes: &[Shape], address: u64) -> Option<&'a [u8]>
    ensures exact { let n = bytes_of_shapes shapes.now in
        MatchOption result (bytes_at memory.now address n ≡ None) (λ bytes. bytes_at memory.now address n ≡ Some bytes.now) }
    ensures long { IfSome result (λ bytes. length bytes.now ≡ bytes_of_shapes shapes.now) }
{
    if shapes.len() as u64 > longest_region(memory) {
        return None;
    }
    bytes_at(memory, address, bytes_of_shapes(shapes))
}

/// The values at an address.
///
/// # Errors
///
/// `HelperFault::Address` where their bytes do not lie wholly inside one region, and want of memory.
pub fn values_at(
    alloc: Global,
    memory: &Regions,
    shapes: &[Shape],
    address: u64,
) -> Result<Items<Value>, HelperFault>
    ensures read { Reads (values_at memory.now shapes.now address) result }
    ensures outside { values_at memory.now shapes.now address ≡ None → result ≡ Err Address }
    ensures shaped { IfOk result (λ values. HasShape shapes.now values) }
{
    let Some(bytes) = value_bytes_at(memory, shapes, address) else {
        return Err(HelperFault::Address);
    };
    match values_in(alloc, shapes, bytes) {
        Ok(values) => Ok(values),
        Err(want) => Err(HelperFault::Memory(want)),
    }
}

// The key of one part at an address.
#[inline(always)]
fn key_of_one(memory: &Regions, shape: Shape, address: u64) -> Option<Key>
    ensures value { MatchOption result (values_at memory.now (shape ∷ []) address ≡ None)
        (λ key. values_at memory.now (shape ∷ []) address ≡ Some key) }
    ensures shaped { IfSome result (λ key. HasShape (shape ∷ []) key) }
{
    let bytes = memory.bytes(address, shape_bytes(shape))?;
    Some(Key::one(value_in(shape, bytes)))
}

/// The key at an address, of at most four parts. A key of one part takes no memory.
///
/// # Errors
///
/// As of [`values_at`].
#[inline(always)]
pub fn key_at(
    alloc: Global,
    memory: &Regions,
    shapes: &[Shape],
    address: u64,
) -> Result<Key, HelperFault>
    requires { length shapes.now ≤ MOST_PARTS }
    ensures read { Reads (values_at memory.now shapes.now address) result }
    ensures outside { values_at memory.now shapes.now address ≡ None → result ≡ Err Address }
    ensures shaped { IfOk result (λ key. HasShape shapes.now key) }
{
    if let [shape] = shapes {
        return match key_of_one(memory, *shape, address) {
            Some(key) => Ok(key),
            None => Err(HelperFault::Address),
        };
    }
    match values_at(alloc, memory, shapes, address) {
        Ok(values) => Ok(Key::of(values.into_vec())),
        Err(fault) => Err(fault),
    }
}

/// The value at an address, where its bytes lie wholly inside one region.
pub fn value_at(memory: &Regions, shape: Shape, address: u64) -> Option<Value>
    ensures value { result ≡ value_at memory.now shape address }
    ensures shaped { IfSome result (IsOfShape shape) }
{
    let bytes = memory.bytes(address, shape_bytes(shape))?;
    Some(value_in(shape, bytes))
}

/// The string in so many bytes of a payload; the empty one where they do not all lie in it.
pub fn payload_text(place: u64, count: u64, payload: &[u8]) -> Str64
    ensures { result ≡ payload_text place count payload.now }
{
    let length = payload.len() as u64;
    if place <= length && count <= length - place {
        let place = place as usize;
        Str64::of(&payload[place..place + count as usize])
    } else {
        Str64::of(&[])
    }
}

// The bytes of a string, with zeros behind it.
fn text_bytes(text: &Str64) -> [u8; TEXT_BYTES]
    ensures { result ≡ value_bytes (variants.Str text.now) }
{
    let text = text.bytes();
    let mut bytes = [0; TEXT_BYTES];
    bytes[..text.len()].copy_from_slice(text);
    bytes
}

/// Writes a value where the frame has room for it.
pub fn put(memory: &mut Regions, to: u64, value: &Value)
    requires { IsTrue (is_in_frame to (room_of value.now)) }
    ensures { memory.new ≡ stored memory.old to (value_bytes value.now) }
{
    match value {
        Value::Int(number) => memory.store(to, &number.to_le_bytes()),
        Value::Str(text) => memory.store(to, &text_bytes(text)),
    }
}
