// Expressions, by the sections on expressions, operators, builtins, maps and variables of the bpftrace language
// reference. The place of a node is that of its first token.
use bt_core::boxed::Boxed;
use bt_core::items::Items;
use bt_core::operator::{BinOp, UnOp};
use bt_core::place::Place;

/// A builtin variable.
#[derive(Clone, Copy, PartialEq, Eq)]
pub enum Builtin {
    Pid,
    Tid,
    Uid,
    Gid,
    Comm,
    Cpu,
    Nsecs,
    Elapsed,
}

/// A variable of a body, by its name with the `$`.
pub struct VarRef {
    pub name: Items<u8>,
    pub place: Place,
}

// Written out, so that it is one call wherever such a value is let go.
impl Drop for VarRef {
    fn drop(self) {
        let Self { name: _, place: _ } = self;
    }
}

/// A map, by its name with the `@`, and the parts of its key. A map that is named as a whole has no
/// parts here.
#[cycle(expr)]
#[derive(Drop)]
pub struct MapRef {
    pub name: Items<u8>,
    pub keys: Items<Expr>,
    pub place: Place,
}

/// What is assigned to.
#[cycle(expr)]
#[derive(Drop)]
pub enum Target {
    Map(MapRef),
    Var(VarRef),
}

/// `++` where `plus` is true and otherwise `--`, which stands before its target where `prefix` is true and otherwise
/// after it.
#[cycle(expr)]
#[derive(Drop)]
pub struct IncDec {
    pub target: Target,
    pub plus: bool,
    pub prefix: bool,
    pub place: Place,
}

/// An expression and where it begins.
#[cycle(expr)]
#[derive(Drop)]
pub struct Expr {
    pub kind: ExprKind,
    pub place: Place,
}

/// What an expression is.
#[cycle(expr)]
pub enum ExprKind {
    /// A number of 64 bits. One from 2^63 on stands as the signed number with the same bits.
    Number(i64),
    /// The bytes of a string, after escapes.
    Text(Items<u8>),
    Builtin(Builtin),
    /// A field of the event, `args.name`.
    Field {
        name: Items<u8>,
        name_place: Place,
    },
    Var(VarRef),
    Map(MapRef),
    Step(IncDec),
    /// An expression in parentheses.
    Paren(Boxed<Expr>),
    Unary {
        op: UnOp,
        value: Boxed<Expr>,
    },
    Binary {
        op: BinOp,
        left: Boxed<Expr>,
        right: Boxed<Expr>,
    },
    /// `left && right`.
    AndThen {
        left: Boxed<Expr>,
        right: Boxed<Expr>,
    },
    /// `left || right`.
    OrElse {
        left: Boxed<Expr>,
        right: Boxed<Expr>,
    },
    /// `condition ? yes : no`.
    Choose {
        condition: Boxed<Expr>,
        yes: Boxed<Expr>,
        no: Boxed<Expr>,
    },
}

// Written out, so that it is one call wherever such a value is let go.
impl Drop for ExprKind {
    #[cycle(expr)]
    fn drop(self) {
        match self {
            ExprKind::Number(_) | ExprKind::Builtin(_) => {}
            ExprKind::Text(text) => drop(text),
            ExprKind::Field {
                name,
                name_place: _,
            } => drop(name),
            ExprKind::Var(var) => drop(var),
            ExprKind::Map(map) => drop(map),
            ExprKind::Step(step) => drop(step),
            ExprKind::Paren(value) | ExprKind::Unary { op: _, value } => drop(value),
            ExprKind::Binary { op: _, left, right }
            | ExprKind::AndThen { left, right }
            | ExprKind::OrElse { left, right } => {
                drop(left);
                drop(right);
            }
            ExprKind::Choose { condition, yes, no } => {
                drop(condition);
                drop(yes);
                drop(no);
            }
        }
    }
}
