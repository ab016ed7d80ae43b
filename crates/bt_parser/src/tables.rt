// What a class of tokens is in the grammar: a word that begins a call, an operator, and of which tier.
ghost use Rattle.std.specs.Prelude.{◌≡◌, ◌≤◌};
ghost use Rattle.bt_grammar.specs.Classes.{compares, is_point, tier_number, tier_of, tier_of_operator};
ghost use Rattle.bt_parser.specs.Mirror.{tier_rank, tighter};
ghost use Rattle.bt_grammar.specs.Tables.{is_call};

use bt_core::operator::BinOp;
use bt_grammar::class::{Class, Tier};

/// Whether an operator compares, and so has no form with `=`.
pub fn compares(op: BinOp) -> bool
    ensures { result ≡ compares op }
{
    matches!(
        op,
        BinOp::Eq | BinOp::Ne | BinOp::Lt | BinOp::Le | BinOp::Gt | BinOp::Ge
    )
}

/// The tier of an operator on numbers.
fn tier_of_operator(op: BinOp) -> Tier
    ensures { result ≡ tier_of_operator op }
{
    match op {
        BinOp::Mul | BinOp::Div | BinOp::Mod => Tier::Products,
        BinOp::Add | BinOp::Sub => Tier::Sums,
        BinOp::Shl | BinOp::Shr => Tier::Shifts,
        BinOp::Lt | BinOp::Le | BinOp::Gt | BinOp::Ge => Tier::Orders,
        BinOp::Eq | BinOp::Ne => Tier::Equalities,
        BinOp::BitAnd => Tier::BitAnds,
        BinOp::BitXor => Tier::BitXors,
        BinOp::BitOr => Tier::BitOrs,
    }
}

/// The tier of a binary operator.
pub fn tier_of(class: Class) -> Option<Tier>
    ensures { result ≡ tier_of class }
{
    match class {
        Class::Operator(op) => Some(tier_of_operator(op)),
        Class::AndAnd => Some(Tier::AndThens),
        Class::OrOr => Some(Tier::OrElses),
        _ => None,
    }
}

/// The tier that binds one step tighter.
pub fn tighter(tier: Tier) -> Option<Tier>
    ensures value { result ≡ tighter tier }
    ensures lower { tier_rank result ≤ tier_number tier }
{
    match tier {
        Tier::Products => None,
        Tier::Sums => Some(Tier::Products),
        Tier::Shifts => Some(Tier::Sums),
        Tier::Orders => Some(Tier::Shifts),
        Tier::Equalities => Some(Tier::Orders),
        Tier::BitAnds => Some(Tier::Equalities),
        Tier::BitXors => Some(Tier::BitAnds),
        Tier::BitOrs => Some(Tier::BitXors),
        Tier::AndThens => Some(Tier::BitOrs),
        Tier::OrElses => Some(Tier::AndThens),
    }
}

/// Whether a word begins a call or is a jump.
pub fn is_call(class: Class) -> bool
    ensures { result ≡ is_call class }
{
    matches!(
        class,
        Class::PrintfWord
            | Class::PrintWord
            | Class::ClearWord
            | Class::ZeroWord
            | Class::DeleteWord
            | Class::ExitWord
            | Class::BreakWord
            | Class::ContinueWord
            | Class::ReturnWord
    )
}

/// Whether a token may be what a probe is attached to.
pub fn is_point(class: Class) -> bool
    ensures { result ≡ is_point class }
{
    matches!(
        class,
        Class::BeginWord | Class::EndWord | Class::TracepointPoint | Class::IntervalPoint
    )
}
