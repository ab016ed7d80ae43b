// Typed statements, by the sections on statements, map functions and functions of the bpftrace language reference.
use crate::expr::{AnyExpr, NumExpr};
use bt_core::items::Items;
use bt_core::map::{AggKind, MapId};
use bt_core::operator::BinOp;

/// A statement that goes elsewhere: out of a loop, to its next turn, or to the body's end, by `exit()` or `return`.
#[derive(Clone, Copy)]
pub enum Jump {
    Break,
    Continue,
    Exit,
    Return,
}

/// A typed statement.
#[cycle(typed_block)]
pub enum TypedStmt {
    /// `$var = value`.
    SetVar {
        var: u32,
        value: AnyExpr,
    },
    /// `map[keys] = value`.
    SetMap {
        map: MapId,
        keys: Items<AnyExpr>,
        value: AnyExpr,
    },
    /// `$var op= value`.
    UpdateVar {
        var: u32,
        op: BinOp,
        value: NumExpr,
    },
    /// `map[keys] op= value`.
    UpdateMap {
        map: MapId,
        keys: Items<AnyExpr>,
        op: BinOp,
        value: NumExpr,
    },
    /// `map[keys] = sum(number)` and the like. `count()` has no number.
    Gather {
        map: MapId,
        keys: Items<AnyExpr>,
        kind: AggKind,
        number: Option<NumExpr>,
    },
    /// `++` or `--` as a statement: its value is dropped.
    Step(NumExpr),
    /// `printf(format, values)`, by the number of the call's format in the script.
    Printf {
        format: u32,
        values: Items<AnyExpr>,
    },
    /// `print(map, top, div)`. What is left out is 0, which keeps all rows, and 1.
    Print {
        map: MapId,
        top: u64,
        div: i64,
    },
    Clear(MapId),
    Zero(MapId),
    /// `delete(map[keys])`.
    Delete {
        map: MapId,
        keys: Items<AnyExpr>,
    },
    Jump(Jump),
    /// The first arm whose condition is not 0 is taken, and where all are 0 the block of `else`.
    If {
        arms: Items<(NumExpr, TypedBlock)>,
        otherwise: Option<TypedBlock>,
    },
    /// A loop, and the line of its word.
    While {
        condition: NumExpr,
        block: TypedBlock,
        line: u32,
    },
    /// A loop of so many turns, from 1 to 100, and the line of its word.
    Unroll {
        turns: u32,
        block: TypedBlock,
        line: u32,
    },
}

// Written out, so that it is one call wherever such a value is let go.
impl Drop for TypedStmt {
    #[cycle(typed_block)]
    fn drop(self) {
        match self {
            TypedStmt::SetVar { var: _, value } => drop(value),
            TypedStmt::SetMap {
                map: _,
                keys,
                value,
            } => {
                drop(keys);
                drop(value);
            }
            TypedStmt::UpdateVar {
                var: _,
                op: _,
                value,
            } => drop(value),
            TypedStmt::UpdateMap {
                map: _,
                keys,
                op: _,
                value,
            } => {
                drop(keys);
                drop(value);
            }
            TypedStmt::Gather {
                map: _,
                keys,
                kind: _,
                number,
            } => {
                drop(keys);
                drop(number);
            }
            TypedStmt::Step(value) => drop(value),
            TypedStmt::Printf { format: _, values } => drop(values),
            TypedStmt::Print {
                map: _,
                top: _,
                div: _,
            } => {}
            TypedStmt::Clear(_) | TypedStmt::Zero(_) | TypedStmt::Jump(_) => {}
            TypedStmt::Delete { map: _, keys } => drop(keys),
            TypedStmt::If { arms, otherwise } => {
                drop(arms);
                drop(otherwise);
            }
            TypedStmt::While {
                condition,
                block,
                line: _,
            } => {
                drop(condition);
                drop(block);
            }
            TypedStmt::Unroll {
                turns: _,
                block,
                line: _,
            } => drop(block),
        }
    }
}

/// Typed statements in braces.
#[cycle(typed_block)]
#[derive(Drop)]
pub struct TypedBlock {
    pub stmts: Items<TypedStmt>,
}
