// Numbers, strings and replies as values.
ghost use Rattle.std.specs.Prelude.{◌≡◌};
ghost use Rattle.map_ops.specs.Values.{number_of, text_of, as_shape, value_of, unassigned, holds, next};

use bt_core::arithmetic::binary;
use bt_core::map::Shape;
use bt_core::operator::BinOp;
use bt_core::step::Reply;
use bt_core::text::Str64;
use bt_core::value::Value;

/// The number of a value, and 0 for a string.
pub fn number_of(value: &Value) -> i64
    ensures { result ≡ number_of value.now }
{
    match value {
        Value::Int(n) => *n,
        Value::Str(_) => 0,
    }
}

/// The string of a value, and the empty one for a number.
pub fn text_of(value: &Value) -> Str64
    ensures { result ≡ text_of value.now }
{
    match value {
        Value::Int(_) => Str64::of(&[]),
        Value::Str(s) => s.copy(),
    }
}

/// A value as one of this type.
pub fn as_shape(shape: Shape, value: &Value) -> Value
    ensures { result ≡ as_shape shape value.now }
{
    match shape {
        Shape::Int => Value::Int(number_of(value)),
        Shape::Str => Value::Str(text_of(value)),
    }
}

/// The value of a reply; a reply without one is 0.
pub fn value_of(reply: &Reply) -> Value
    ensures { result ≡ value_of reply.now }
{
    match reply {
        Reply::Value(value) => value.copy(),
        Reply::Done => Value::Int(0),
        Reply::Pairs(_) => Value::Int(0),
        Reply::Aggs(_) => Value::Int(0),
        Reply::Last(_) => Value::Int(0),
        Reply::Stopped(_) => Value::Int(0),
    }
}

/// What a variable of this type is before its first assignment.
pub fn unassigned(shape: Shape) -> Value
    ensures { result ≡ unassigned shape }
{
    match shape {
        Shape::Int => Value::Int(0),
        Shape::Str => Value::Str(Str64::of(&[])),
    }
}

/// Whether a number counts as true.
pub fn holds(n: i64) -> bool
    ensures { result ≡ holds n }
{
    n != 0
}

/// One more or one less.
pub fn next(plus: bool, n: i64) -> i64
    ensures { result ≡ next plus n }
{
    if plus {
        binary(BinOp::Add, n, 1)
    } else {
        binary(BinOp::Sub, n, 1)
    }
}
