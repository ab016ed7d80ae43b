// Statements and blocks, by the sections on statements, map functions and functions of the bpftrace language
// reference. The place of a node is that of its first token.
use crate::expr::{Expr, IncDec, MapRef, Target};
use crate::gathering::Gathering;
use bt_core::items::Items;
use bt_core::operator::BinOp;
use bt_core::place::Place;

/// What is gathered in an aggregation map: a map function and its arguments.
pub enum AggCall {
    Count,
    /// A map function of one number.
    Gather {
        function: Gathering,
        number: Expr,
    },
    Lhist {
        number: Expr,
        min: i64,
        max: i64,
        step: i64,
    },
}

// Written out, so that it is one call wherever such a value is let go.
impl Drop for AggCall {
    fn drop(self) {
        match self {
            AggCall::Count
            | AggCall::Gather {
                function: _,
                number: _,
            }
            | AggCall::Lhist {
                number: _,
                min: _,
                max: _,
                step: _,
            } => {}
        }
    }
}

/// Statements in braces.
#[cycle(block)]
#[derive(Drop)]
pub struct Block {
    pub stmts: Items<Stmt>,
    pub place: Place,
}

/// A statement and where it begins.
#[cycle(block)]
#[derive(Drop)]
pub struct Stmt {
    pub kind: StmtKind,
    pub place: Place,
}

/// What a statement is.
#[cycle(block)]
pub enum StmtKind {
    /// `map = agg`, where the aggregation's word stands at `agg_place`.
    SetAgg {
        map: MapRef,
        agg: AggCall,
        agg_place: Place,
    },
    /// `target = value` where `op` is `None`, and otherwise `target op= value`. The operator is one of the ten on numbers and bits.
    Assign {
        target: Target,
        op: Option<BinOp>,
        value: Expr,
    },
    Step(IncDec),
    Printf {
        format: Items<u8>,
        format_place: Place,
        values: Items<Expr>,
    },
    /// `print(map, top, div)`, where the last ones may be left out.
    Print {
        map: MapRef,
        top: Option<i64>,
        div: Option<i64>,
    },
    Clear(MapRef),
    Zero(MapRef),
    /// `delete(map[keys])`.
    Delete(MapRef),
    /// `delete(map, key)`.
    DeleteKey {
        map: MapRef,
        key: Expr,
    },
    Exit,
    Break,
    Continue,
    Return,
    /// The first arm whose condition holds is taken, and where none does the block of `else`.
    If {
        arms: Items<(Expr, Block)>,
        otherwise: Option<Block>,
    },
    While {
        condition: Expr,
        block: Block,
    },
    Unroll {
        turns: i64,
        block: Block,
    },
}

// Written out, so that it is one call wherever such a value is let go.
impl Drop for StmtKind {
    #[cycle(block)]
    fn drop(self) {
        match self {
            StmtKind::SetAgg {
                map,
                agg,
                agg_place: _,
            } => {
                drop(map);
                drop(agg);
            }
            StmtKind::Assign {
                target,
                op: _,
                value,
            } => {
                drop(target);
                drop(value);
            }
            StmtKind::Step(step) => drop(step),
            StmtKind::Printf {
                format,
                format_place: _,
                values,
            } => {
                drop(format);
                drop(values);
            }
            StmtKind::Print {
                map,
                top: _,
                div: _,
            }
            | StmtKind::Clear(map)
            | StmtKind::Zero(map)
            | StmtKind::Delete(map) => drop(map),
            StmtKind::DeleteKey { map, key } => {
                drop(map);
                drop(key);
            }
            StmtKind::Exit | StmtKind::Break | StmtKind::Continue | StmtKind::Return => {}
            StmtKind::If { arms, otherwise } => {
                drop(arms);
                drop(otherwise);
            }
            StmtKind::While { condition, block } => {
                drop(condition);
                drop(block);
            }
            StmtKind::Unroll { turns: _, block } => drop(block),
        }
    }
}
