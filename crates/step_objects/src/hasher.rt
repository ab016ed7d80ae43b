// The hash by which tables find keys.
ghost use Rattle.std.specs.Prelude.{◌≡◌, ◌<◌, length};
ghost use Rattle.step_objects.specs.Hashing.{fed, told, mixed, rest_word};

use byteorder::{ByteOrder, LittleEndian};
use std::hash::Hasher;

const MULTIPLIER: u64 = 17_380_933_483_125_451_205;

/// A hasher of an addition and a multiplication to 128 bits for each eight bytes. The product's halves are joined, so that each byte of
/// a word reaches the low bits, by which a table finds its slot. Its answers are the same in every run: keys can be made that collide,
/// and then an operation compares the at most 4,096 keys of one table.
#[derive(Clone, Copy)]
pub struct KeyHasher {
    state: u64,
}

impl Default for KeyHasher {
    fn default() -> KeyHasher {
        KeyHasher { state: 0 }
    }
}

impl Hasher for KeyHasher {
    ghost write = { fed };

    ghost finish = { told };

    #[inline(always)]
    fn finish(&self) -> u64 {
        self.state
    }

    #[inline(always)]
    fn write(&mut self, bytes: &[u8]) {
        let words = bytes.len() / 8;
        for n in 0..words {
            self.state = mixed(self.state, LittleEndian::read_u64(&bytes[8 * n..]));
        }
        if bytes.len() % 8 > 0 {
            self.state = mixed(self.state, rest_word(&bytes[8 * words..]));
        }
    }
}

/// A state that has taken in one word more.
#[inline(always)]
fn mixed(state: u64, word: u64) -> u64
    ensures { result ≡ mixed state word }
{
    let product = state.wrapping_add(word) as u128 * MULTIPLIER as u128;
    (product & 0xFFFF_FFFF_FFFF_FFFF) as u64 ^ (product >> 64) as u64
}

/// The number that fewer than eight bytes spell, the highest first. They are read one by one, since a word that they were copied into right
/// before would have to be waited for.
#[inline(always)]
fn rest_word(bytes: &[u8]) -> u64
    requires { length bytes.now < 8 }
    ensures { result ≡ rest_word bytes.now }
{
    let mut word: u64 = 0;
    for n in 0..bytes.len() {
        word = word.wrapping_mul(256).wrapping_add(u64::from(bytes[n]));
    }
    word
}
