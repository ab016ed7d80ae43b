// Periods of intervals.
ghost use Rattle.std.specs.Prelude.{◌≡◌, ◌^◌, ◌<◌, SomeIff};
ghost use Rattle.bt_attach.specs.Ticks.{nanoseconds, period_in};

use bt_ast::probe::Unit;

/// The greatest period in nanoseconds.
const MOST: u64 = 9_223_372_036_854_775_807;

/// The period in nanoseconds, where it is below 2^64.
fn nanoseconds(unit: Unit, number: u64) -> Option<u64>
    requires { 0 < number }
    ensures { SomeIff result (nanoseconds unit number < 2 ^ 64) (nanoseconds unit number) }
{
    match unit {
        Unit::S => number.checked_mul(1_000_000_000),
        Unit::Ms => number.checked_mul(1_000_000),
        Unit::Us => number.checked_mul(1_000),
        Unit::Hz => Some(1_000_000_000 / number),
    }
}

/// The period of an interval in nanoseconds, or `None` where its number or the period is 0 or the
/// period is above 2^63 - 1.
pub(crate) fn period_in(unit: Unit, number: u64) -> Option<u64>
    ensures { result ≡ period_in unit number }
{
    if number == 0 {
        return None;
    }
    match nanoseconds(unit, number) {
        Some(period) if 1 <= period && period <= MOST => Some(period),
        _ => None,
    }
}
