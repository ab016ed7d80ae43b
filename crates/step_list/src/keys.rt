// Keys, each kept once where their hashes are apart.
ghost use Rattle.std.specs.Prelude.{◌≡◌, ◌<◌, ◌∷◌, ◌++◌, IsTrue, [], length, get_or, vec_len, vec_capacity, IfOk};
ghost use Rattle.step_list.specs.Deeds.{Extends};

use bt_core::key::Key;
use bt_core::memory::{Memory, TryCopy};
use bt_core::value::Value;
use byteorder::{ByteOrder, LittleEndian};
use std::alloc::Global;
use std::mem;

/// The least number of slots.
const SLOTS: usize = 64;

/// An odd number whose bits are mixed, as the fraction of the golden ratio has them.
const MULTIPLIER: u64 = 0x9E37_79B9_7F4A_7C15;

/// A copy of the key of a number, or the key of no parts where there is no such key. [`Memory`] where there is no room for the copy.
pub(crate) fn key_at(alloc: Global, keys: &[Key], number: u32) -> Result<Key, Memory>
    ensures { IfOk result (λ key. key ≡ get_or keys.now number []) }
{
    match keys.get(number as usize) {
        Some(key) => key.try_copy(alloc),
        None => Ok(Key::of(Vec::new(alloc))),
    }
}

/// Keeps a key, which is one of the keys already or is put behind them, and tells its number. There is room for it. It is taken out where it
/// is put behind them, and stays where it lies otherwise.
///
/// The slot of the key's hash names the number of a key, which is compared, so that any numbers may stand in the slots. Where the slot
/// names another key, this one is put behind all keys, though it may be among them, and the slot names it from then on.
#[inline(always)]
pub(crate) fn keep_key(keys: &mut Vec<Key>, slots: &mut Vec<u32>, key: &mut Key) -> u32
    requires room { vec_len keys.old < vec_capacity keys.old }
    requires few { length keys.old.items < 0xffffffff }
    ensures kept { Extends keys.old.items keys.new.items }
    ensures within { result < length keys.new.items }
    ensures key { get_or keys.new.items result [] ≡ key.old }
{
    let slot = slot_of(key, slots.len());
    if let Some(number) = slots.get(slot) {
        let number = *number;
        if let Some(old) = keys.get(number as usize) {
            if is_same(old, key) {
                return number;
            }
        }
    }
    let number = keys.len() as u32;
    put_key(keys, key);
    if slot < slots.len() {
        slots[slot] = number;
    }
    number
}

/// Takes a key out and puts it behind all keys. There is room for it.
fn put_key(keys: &mut Vec<Key>, key: &mut Key)
    requires { vec_len keys.old < vec_capacity keys.old }
    ensures { keys.new.items ≡ keys.old.items ++ key.old ∷ [] }
{
    let kept = mem::replace(key, Key::one(Value::Int(0)));
    keys.push_reserved(kept);
}

/// Whether two keys are one.
#[inline(always)]
fn is_same(one: &Key, other: &Key) -> bool
    ensures { IsTrue result → one.now ≡ other.now }
{
    one == other
}

/// Slots for these keys and as many more, each with the number of the last key whose hash is the slot's, or 0.
pub(crate) fn slots_for(alloc: Global, keys: &[Key]) -> Result<Vec<u32>, Memory> {
    let count = keys.len().saturating_mul(2).saturating_add(SLOTS);
    let mut slots = vec![in alloc; 0u32; count]?;
    let mut number: u32 = 0;
    for key in keys {
        let slot = slot_of(key, slots.len());
        slots[slot] = number;
        number = number.wrapping_add(1);
    }
    Ok(slots)
}

/// The slot of a key among so many. No clause rests on which one it is.
#[inline(always)]
fn slot_of(key: &Key, slots: usize) -> usize
    ensures { 0 < slots → result < slots }
{
    let mut sum = 0;
    for part in key.parts() {
        sum = match part {
            Value::Int(number) => mixed(sum, number.cast_unsigned()),
            Value::Str(text) => text_mixed(sum, text.bytes()),
        };
    }
    place_among(sum, slots)
}

/// The place among so many that a hash has by its high bits.
#[inline(always)]
fn place_among(sum: u64, places: usize) -> usize
    ensures { 0 < places → result < places }
{
    ((sum as u128 * places as u128) >> 64) as usize
}

/// A hash that has taken in a text more, eight bytes at a time.
#[inline(always)]
fn text_mixed(mut sum: u64, bytes: &[u8]) -> u64 {
    let words = bytes.len() / 8;
    for n in 0..words {
        sum = mixed(sum, LittleEndian::read_u64(&bytes[8 * n..]));
    }
    if bytes.len() % 8 > 0 {
        sum = mixed(sum, rest_word(&bytes[8 * words..]));
    }
    sum
}

/// The number that fewer than eight bytes spell, the highest first. A word that they are copied into, and that is read right behind that,
/// has to be waited for; these are read one by one.
#[inline(always)]
fn rest_word(bytes: &[u8]) -> u64 {
    let mut word: u64 = 0;
    for byte in bytes {
        word = word.wrapping_mul(256).wrapping_add(u64::from(*byte));
    }
    word
}

/// A hash that has taken in one word more.
#[inline(always)]
fn mixed(sum: u64, word: u64) -> u64 {
    (sum ^ word).wrapping_mul(MULTIPLIER)
}
