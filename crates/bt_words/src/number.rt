// Numbers as operands.
ghost use Rattle.std.specs.Prelude.{◌≡◌, ℕ};
ghost use Rattle.std.specs.Option.{option_map};
ghost use Rattle.bt_words.specs.declared.order.Order.{Order};
ghost use Rattle.bt_words.specs.Words.{number_in, two_numbers};

use bt_core::bytes::is_digit;
use bt_core::limits::EVENTS;

/// The greatest first number of `gen` and `big`. The greatest second one is the limit of events.
const MOST_X: u32 = 2_147_483_647;

/// Two numbers.
#[derive(Clone, Copy)]
pub(crate) struct Numbers {
    pub x: u32,
    pub n: u32,
}

/// The numbers of `gen` and `big` that two words spell, or `None` where they spell none.
pub(crate) fn two_numbers(x: &str, n: &str) -> Option<Numbers>
    ensures { (made : ℕ → ℕ → Order) → two_numbers made x.now n.now ≡ option_map (λ two. made two.x two.n) result }
{
    let Some(x) = number_in(x.as_bytes(), MOST_X) else {
        return None;
    };
    let Some(n) = number_in(n.as_bytes(), EVENTS) else {
        return None;
    };
    Some(Numbers { x, n })
}

/// The number that a word of 1 to 10 decimal digits spells, or `None` where it spells none or a
/// greater one.
fn number_in(word: &[u8], greatest: u32) -> Option<u32>
    ensures { result ≡ number_in greatest word.now }
{
    if word.is_empty() || word.len() > 10 {
        return None;
    }
    let mut value = 0u64;
    for byte in word {
        if !is_digit(*byte) {
            return None;
        }
        value = value * 10 + u64::from(*byte - b'0');
        if value > u64::from(greatest) {
            return None;
        }
    }
    Some(value as u32)
}
