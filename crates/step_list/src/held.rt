// What the types of values say of a reply.
ghost use Rattle.std.specs.Prelude.{◌<◌, FitsSigned};
ghost use Rattle.std.specs.Int.{w64};
ghost use Rattle.std.specs.List.{AllByRecursion};
ghost use Rattle.step_list.specs.HeldReplies.{OptionFits, IsHeldAgg, AreHeldAggs, IsHeldReply};

use bt_core::agg::Agg;
use bt_core::key::Key;
use bt_core::step::Reply;
use bt_core::value::Value;

/// Each item is a byte. It reads none.
fn bytes_are_held(bytes: &[u8])
    ensures { AllByRecursion (λ b. b < 256) bytes.now }
{}

/// The number has 64 bits.
fn number_is_held(number: i64)
    ensures { FitsSigned w64 number }
{
    let _held = number;
}

/// A number that is there has 64 bits.
fn option_is_held(number: Option<i64>)
    ensures { OptionFits number }
{
    if let Some(number) = number {
        number_is_held(number);
    }
}

/// The numbers of an aggregate have 64 bits.
fn agg_is_held(agg: &Agg)
    ensures { IsHeldAgg agg.now }
{
    number_is_held(agg.count);
    number_is_held(agg.sum);
    option_is_held(agg.least);
    option_is_held(agg.greatest);
}

/// Each of these aggregates is such.
fn aggs_are_held(rows: &[(Key, Agg)])
    ensures { AreHeldAggs rows.now }
{
    for row in rows {
        agg_is_held(&row.1);
    }
}

/// A value that is replied is a number of 64 bits or a string of bytes, and the numbers of aggregates have 64 bits.
pub(crate) fn reply_is_held(reply: &Reply)
    ensures { IsHeldReply reply.now }
{
    match reply {
        Reply::Value(Value::Str(text)) => bytes_are_held(text.bytes()),
        Reply::Value(Value::Int(number)) => number_is_held(*number),
        Reply::Aggs(rows) => aggs_are_held(rows.as_slice()),
        _ => (),
    }
}
