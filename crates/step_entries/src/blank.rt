// Operations without their items.
ghost use Rattle.std.specs.Prelude.{◌≡◌, ◌↔◌, IsTrue};
ghost use Rattle.step_entries.specs.Blank.{blank_op};

use bt_core::key::Key;
use bt_core::order::{compare_keys, compare_values, keys_are_ordered, values_are_ordered};
use bt_core::step::Op;
use bt_core::value::Value;
use std::cmp::Ordering;

fn is_same_key(one: &Key, other: &Key) -> bool
    ensures { IsTrue result ↔ (one.now ≡ other.now) }
{
    keys_are_ordered();
    match compare_keys(one, other) {
        Ordering::Equal => true,
        _ => false,
    }
}

fn is_same_value(one: &Value, other: &Value) -> bool
    ensures { IsTrue result ↔ (one.now ≡ other.now) }
{
    values_are_ordered();
    match compare_values(one, other) {
        Ordering::Equal => true,
        _ => false,
    }
}

/// Whether two operations are one but for what they emit.
pub fn is_same_but_item(op: &Op, other: &Op) -> bool
    ensures { IsTrue result ↔ (blank_op op.now ≡ blank_op other.now) }
{
    match op {
        Op::Get(key) => match other {
            Op::Get(k) => is_same_key(key, k),
            _ => false,
        },
        Op::Set(key, value) => match other {
            Op::Set(k, v) => is_same_key(key, k) && is_same_value(value, v),
            _ => false,
        },
        Op::Delete(key) => match other {
            Op::Delete(k) => is_same_key(key, k),
            _ => false,
        },
        Op::Clear => match other {
            Op::Clear => true,
            _ => false,
        },
        Op::Zero => match other {
            Op::Zero => true,
            _ => false,
        },
        Op::ReadAll => match other {
            Op::ReadAll => true,
            _ => false,
        },
        Op::Add(map, key, number) => match other {
            Op::Add(m, k, n) => map.0 == m.0 && is_same_key(key, k) && *number == *n,
            _ => false,
        },
        Op::ClearOf(map) => match other {
            Op::ClearOf(m) => map.0 == m.0,
            _ => false,
        },
        Op::ZeroOf(map) => match other {
            Op::ZeroOf(m) => map.0 == m.0,
            _ => false,
        },
        Op::Read(map) => match other {
            Op::Read(m) => map.0 == m.0,
            _ => false,
        },
        Op::Cross(tick) => match other {
            Op::Cross(t) => *tick == *t,
            _ => false,
        },
        Op::Check => match other {
            Op::Check => true,
            _ => false,
        },
        Op::Stop => match other {
            Op::Stop => true,
            _ => false,
        },
        Op::Emit(_) => match other {
            Op::Emit(_) => true,
            _ => false,
        },
    }
}
