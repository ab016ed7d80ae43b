// The classes of tokens, and the tiers of binary operators.
use bt_ast::expr::Builtin;
use bt_ast::gathering::Gathering;
use bt_core::operator::BinOp;

/// What the grammar sees of a token: which word or mark it is, or its kind.
#[derive(Clone, Copy, PartialEq, Eq)]
pub enum Class {
    /// The word of a builtin variable.
    BuiltinWord(Builtin),
    /// The word of a map function of one number.
    GatherWord(Gathering),
    /// An operator between two operands, other than `&&` and `||`. `-` is an operator before its operand too.
    Operator(BinOp),
    /// An operator on numbers and bits with `=` in one mark, as `+=`.
    UpdateMark(BinOp),
    /// `BEGIN`.
    BeginWord,
    /// `END`.
    EndWord,
    /// `if`.
    IfWord,
    /// `else`.
    ElseWord,
    /// `while`.
    WhileWord,
    /// `unroll`.
    UnrollWord,
    /// `count`.
    CountWord,
    /// `lhist`.
    LhistWord,
    /// `printf`.
    PrintfWord,
    /// `print`.
    PrintWord,
    /// `clear`.
    ClearWord,
    /// `zero`.
    ZeroWord,
    /// `delete`.
    DeleteWord,
    /// `exit`.
    ExitWord,
    /// `break`.
    BreakWord,
    /// `continue`.
    ContinueWord,
    /// `return`.
    ReturnWord,
    /// `args`.
    ArgsWord,
    /// A word that the grammar does not name.
    OtherWord,
    /// `tracepoint:S:E` or `t:S:E`.
    TracepointPoint,
    /// `interval:U:N` or `i:U:N`.
    IntervalPoint,
    /// `@` or a name with `@`.
    MapName,
    /// A name with `$`.
    VarName,
    NumberLiteral,
    TextLiteral,
    /// `++`.
    Increment,
    /// `--`.
    Decrement,
    /// `&&`.
    AndAnd,
    /// `||`.
    OrOr,
    /// `->`.
    Arrow,
    /// `{`.
    OpenBrace,
    /// `}`.
    CloseBrace,
    /// `(`.
    OpenParen,
    /// `)`.
    CloseParen,
    /// `[`.
    OpenBracket,
    /// `]`.
    CloseBracket,
    /// `,`.
    Comma,
    /// `;`.
    Semicolon,
    /// `.`.
    Dot,
    /// `=`.
    Assign,
    /// `~`.
    Tilde,
    /// `!`.
    Bang,
    /// `?`.
    Question,
    /// `:`.
    Colon,
    /// A token that stands nowhere in the grammar: an attach token of another form, or another mark.
    Foreign,
}

/// Binary operators that bind equally, from the tightest to the loosest.
#[derive(Clone, Copy, PartialEq, Eq)]
pub enum Tier {
    /// `*`, `/` and `%`.
    Products,
    /// `+` and `-`.
    Sums,
    /// `<<` and `>>`.
    Shifts,
    /// `<`, `<=`, `>` and `>=`.
    Orders,
    /// `==` and `!=`.
    Equalities,
    /// `&`.
    BitAnds,
    /// `^`.
    BitXors,
    /// `|`.
    BitOrs,
    /// `&&`.
    AndThens,
    /// `||`.
    OrElses,
}
