// The builtins that are whole numbers.
ghost use Rattle.std.specs.Prelude.{◌≡◌, ◌<◌, ◌≤◌};
ghost use Rattle.map_ops.specs.Builtins.{builtin_index, builtin_place, builtin_value};

use bt_core::context::Context;
use event_record::contexts::context_numbers;
use typed_tree::expr::NumBuiltin;

/// Which of a context's numbers a builtin is, counted from 0.
fn builtin_index(builtin: NumBuiltin) -> usize
    ensures value { result ≡ builtin_index builtin }
    ensures there { result < 8 }
{
    match builtin {
        NumBuiltin::Nsecs => 0,
        NumBuiltin::Elapsed => 1,
        NumBuiltin::Pid => 2,
        NumBuiltin::Tid => 3,
        NumBuiltin::Uid => 4,
        NumBuiltin::Gid => 5,
        NumBuiltin::Cpu => 6,
    }
}

/// The first of the eight bytes of a builtin in a context.
pub fn builtin_place(builtin: NumBuiltin) -> u64
    ensures value { result ≡ builtin_place builtin }
    ensures small { result ≤ 56 }
{
    8 * builtin_index(builtin) as u64
}

/// The value of a builtin: the number of the context at its place, as the signed number of its 64 bits.
pub fn builtin_value(builtin: NumBuiltin, context: &Context) -> i64
    ensures { result ≡ builtin_value builtin context.now }
{
    context_numbers(context)[builtin_index(builtin)].cast_signed()
}
