// Instructions. Each takes its operands off the end of a stack of values, and puts its value there.
use bt_core::items::Items;
use bt_core::map::{MapId, Shape};
use bt_core::operator::{BinOp, UnOp};
use bt_core::value::Value;
use event_layout::field::Field;
use typed_tree::expr::NumBuiltin;

/// An instruction. A variable is named by its number in its body, and a key by the types of its parts.
///
/// They follow the constructs of the bpftrace language reference's sections on expressions, statements, maps and map functions.
#[derive(Drop)]
pub enum Instr {
    /// Puts a value.
    Put(Value),
    /// Puts the value of a builtin that is a whole number.
    Builtin(NumBuiltin),
    /// Puts the command's name.
    Comm,
    /// Puts the number of a field.
    NumberField(Field),
    /// Puts the string of a field.
    TextField(Field),
    /// Puts the value of a variable of this type.
    Load {
        var: u32,
        shape: Shape,
    },
    /// Takes a value of this type into a variable.
    Store {
        var: u32,
        shape: Shape,
    },
    /// `++` where `plus` is true and otherwise `--`: puts the new value where `prefix` is true and otherwise the old one.
    StepVar {
        var: u32,
        plus: bool,
        prefix: bool,
    },
    /// `op=`: takes a number.
    UpdateVar {
        var: u32,
        op: BinOp,
    },
    /// Takes a number, and puts what the operator makes of it.
    Unary(UnOp),
    /// Takes two numbers, and puts what the operator makes of them.
    Binary(BinOp),
    /// Takes two strings, and puts 1 where they are equal, or where they differ, and otherwise 0.
    Compare {
        equal: bool,
    },
    /// Takes a number, and puts 1 where it counts as true and otherwise 0.
    Truth,
    /// Takes a key, and puts the map's value under it, of this type.
    Get {
        map: MapId,
        key: Items<Shape>,
        shape: Shape,
    },
    /// Takes a key, and puts the number under it of an aggregation that is no histogram, over the tables of all actors.
    ReadAgg {
        map: MapId,
        key: Items<Shape>,
    },
    /// Takes a value of this type and the key below it.
    Set {
        map: MapId,
        key: Items<Shape>,
        shape: Shape,
    },
    /// Takes a key.
    Delete {
        map: MapId,
        key: Items<Shape>,
    },
    /// `op=` on a map of numbers: takes a number and the key below it.
    Update {
        map: MapId,
        key: Items<Shape>,
        op: BinOp,
    },
    /// `++` and `--` on a map of numbers: takes a key, and puts the new or the old value.
    StepMap {
        map: MapId,
        key: Items<Shape>,
        plus: bool,
        prefix: bool,
    },
    /// Takes a number and the key below it, and adds the number to an aggregation.
    Add {
        map: MapId,
        key: Items<Shape>,
    },
    /// Takes a key, and adds 1 to an aggregation.
    Count {
        map: MapId,
        key: Items<Shape>,
    },
    /// Takes values of these types, and prints them by a format of the script.
    Printf {
        format: u32,
        shapes: Items<Shape>,
    },
    /// Prints a map.
    Print {
        map: MapId,
        top: u64,
        div: i64,
    },
    Clear(MapId),
    Zero(MapId),
    /// Prints the warning that the loop of this line was cut.
    Cut(u32),
    /// `exit()`.
    Stop,
    /// Takes a number, and lets it go.
    Pop,
}
