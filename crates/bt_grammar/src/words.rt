// The words and marks that the grammar names, each with its class, and the two ways through these lists.
ghost use Rattle.std.specs.Prelude.{◌≡◌, map};
ghost use Rattle.bt_grammar.specs.Words.{class_in, mark_class, mark_of, text_in, word_class, word_of};

use crate::class::Class;
use bt_ast::expr::Builtin;
use bt_ast::gathering::Gathering;
use bt_core::operator::BinOp;

/// The words with their classes.
pub const WORDS: [(&[u8], Class); 31] = [
    (b"BEGIN", Class::BeginWord),
    (b"END", Class::EndWord),
    (b"if", Class::IfWord),
    (b"else", Class::ElseWord),
    (b"while", Class::WhileWord),
    (b"unroll", Class::UnrollWord),
    (b"count", Class::CountWord),
    (b"sum", Class::GatherWord(Gathering::Sum)),
    (b"min", Class::GatherWord(Gathering::Min)),
    (b"max", Class::GatherWord(Gathering::Max)),
    (b"avg", Class::GatherWord(Gathering::Avg)),
    (b"hist", Class::GatherWord(Gathering::Hist)),
    (b"lhist", Class::LhistWord),
    (b"printf", Class::PrintfWord),
    (b"print", Class::PrintWord),
    (b"clear", Class::ClearWord),
    (b"zero", Class::ZeroWord),
    (b"delete", Class::DeleteWord),
    (b"exit", Class::ExitWord),
    (b"break", Class::BreakWord),
    (b"continue", Class::ContinueWord),
    (b"return", Class::ReturnWord),
    (b"pid", Class::BuiltinWord(Builtin::Pid)),
    (b"tid", Class::BuiltinWord(Builtin::Tid)),
    (b"uid", Class::BuiltinWord(Builtin::Uid)),
    (b"gid", Class::BuiltinWord(Builtin::Gid)),
    (b"comm", Class::BuiltinWord(Builtin::Comm)),
    (b"cpu", Class::BuiltinWord(Builtin::Cpu)),
    (b"nsecs", Class::BuiltinWord(Builtin::Nsecs)),
    (b"elapsed", Class::BuiltinWord(Builtin::Elapsed)),
    (b"args", Class::ArgsWord),
];

/// The marks with their classes.
pub const MARKS: [(&[u8], Class); 45] = [
    (b"<<=", Class::UpdateMark(BinOp::Shl)),
    (b">>=", Class::UpdateMark(BinOp::Shr)),
    (b"+=", Class::UpdateMark(BinOp::Add)),
    (b"-=", Class::UpdateMark(BinOp::Sub)),
    (b"*=", Class::UpdateMark(BinOp::Mul)),
    (b"/=", Class::UpdateMark(BinOp::Div)),
    (b"%=", Class::UpdateMark(BinOp::Mod)),
    (b"&=", Class::UpdateMark(BinOp::BitAnd)),
    (b"|=", Class::UpdateMark(BinOp::BitOr)),
    (b"^=", Class::UpdateMark(BinOp::BitXor)),
    (b"<<", Class::Operator(BinOp::Shl)),
    (b">>", Class::Operator(BinOp::Shr)),
    (b"<=", Class::Operator(BinOp::Le)),
    (b">=", Class::Operator(BinOp::Ge)),
    (b"==", Class::Operator(BinOp::Eq)),
    (b"!=", Class::Operator(BinOp::Ne)),
    (b"+", Class::Operator(BinOp::Add)),
    (b"-", Class::Operator(BinOp::Sub)),
    (b"*", Class::Operator(BinOp::Mul)),
    (b"/", Class::Operator(BinOp::Div)),
    (b"%", Class::Operator(BinOp::Mod)),
    (b"&", Class::Operator(BinOp::BitAnd)),
    (b"|", Class::Operator(BinOp::BitOr)),
    (b"^", Class::Operator(BinOp::BitXor)),
    (b"<", Class::Operator(BinOp::Lt)),
    (b">", Class::Operator(BinOp::Gt)),
    (b"++", Class::Increment),
    (b"--", Class::Decrement),
    (b"&&", Class::AndAnd),
    (b"||", Class::OrOr),
    (b"->", Class::Arrow),
    (b"{", Class::OpenBrace),
    (b"}", Class::CloseBrace),
    (b"(", Class::OpenParen),
    (b")", Class::CloseParen),
    (b"[", Class::OpenBracket),
    (b"]", Class::CloseBracket),
    (b",", Class::Comma),
    (b";", Class::Semicolon),
    (b".", Class::Dot),
    (b"=", Class::Assign),
    (b"~", Class::Tilde),
    (b"!", Class::Bang),
    (b"?", Class::Question),
    (b":", Class::Colon),
];

/// The class of a text in some rows, or `other` where none of them has it.
fn class_in(rows: &[(&[u8], Class)], text: &[u8], other: Class) -> Class
    ensures { result ≡ class_in (map (λ row. (row.0.now, row.1)) rows.now) text.now other }
{
    for (word, class) in rows {
        if *word == text {
            return *class;
        }
    }
    other
}

/// The class of a word.
#[tactic(auto, unfolding(crate::specs::Words::word_class))]
pub fn word_class(word: &[u8]) -> Class
    ensures { result ≡ word_class word.now }
{
    class_in(&WORDS, word, Class::OtherWord)
}

/// The class of a mark.
#[tactic(auto, unfolding(crate::specs::Words::mark_class))]
pub fn mark_class(mark: &[u8]) -> Class
    ensures { result ≡ mark_class mark.now }
{
    class_in(&MARKS, mark, Class::Foreign)
}

/// The text of a class in some rows, or nothing where none of them has it.
fn text_in<'a>(rows: &[(&'a [u8], Class)], class: Class) -> &'a [u8]
    ensures { result.now ≡ text_in (map (λ row. (row.0.now, row.1)) rows.now) class }
{
    for (text, row) in rows {
        if *row == class {
            return text;
        }
    }
    b""
}

/// The word of a class that has one.
#[tactic(auto, unfolding(crate::specs::Words::word_of))]
pub fn word_of(class: Class) -> &'static [u8]
    ensures { result.now ≡ word_of class }
{
    text_in(&WORDS, class)
}

/// The mark of a class that has one.
#[tactic(auto, unfolding(crate::specs::Words::mark_of))]
pub fn mark_of(class: Class) -> &'static [u8]
    ensures { result.now ≡ mark_of class }
{
    text_in(&MARKS, class)
}
