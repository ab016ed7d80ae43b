// What steps tell.
use bt_core::item::Item;
use bt_core::step::{Op, Reply, Step};
use bt_core::value::Value;

/// What a step tells: its actor, what it does, and the number that it sets, adds or prints.
pub type Told = (u32, &'static str, i64);

/// The number that is printed.
fn printed(item: &Item) -> Option<i64> {
    match item {
        Item::Printf { format: 0, values } => match values.as_slice() {
            [Value::Int(number)] => Some(*number),
            _ => None,
        },
        _ => None,
    }
}

/// What a step tells, if it sets, adds or prints a number.
pub fn told(step: &Step) -> Option<Told> {
    if step.reply != Reply::Done {
        return None;
    }
    let (name, number) = match &step.op {
        Op::Set(_, Value::Int(number)) => ("set", *number),
        Op::Add(_, _, number) => ("add", *number),
        Op::Emit(item) => ("print", printed(item)?),
        _ => return None,
    };
    Some((step.actor, name, number))
}
