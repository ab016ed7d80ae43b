// Expressions without parts, and what joins parts.
ghost use Rattle.std.specs.Prelude.{◌≡◌, ◌≢◌, ◌∷◌, ◌++◌, [], Err, IfOk, length, nat_lt};
ghost use Rattle.bt_core.specs.Text.{short_text};
ghost use Rattle.bt_core.specs.declared.limits.TheConstants.{STRING_BYTES};
ghost use Rattle.bt_core.specs.declared.map.Shape.TheVariants.{Int, Str};
ghost use Rattle.expr_types.specs.declared.fault.Rule.TheVariants.{WrongType};
ghost use Rattle.expr_types.specs.declared.fault.TypeError.TheVariants.{Broken, Memory as NoMemory};
ghost use Rattle.typed_tree.specs.Parts.{made, made_of, Literal, Prefixed, Joined, Chosen, num_parts, str_parts, compared};
ghost use Rattle.expr_types.specs.Judge.{Refuses};
ghost use Rattle.expr_types.specs.Rules.{breaks};
ghost use Rattle.expr_types.specs.Joint.{joint_breaks, joint_part};
ghost use Rattle.expr_types.specs.Join.{Makes, builtin_made, joined_breaks, whole_breaks, both_break, same_breaks, choose_breaks, logical_part};

use crate::fault::{Rule, TypeError};
use crate::rules::broken;
use bt_ast::expr::Builtin;
use bt_core::beside::beside;
use bt_core::boxed::Boxed;
use bt_core::limits::STRING_BYTES;
use bt_core::memory::Memory;
use bt_core::operator::{BinOp, UnOp};
use bt_core::place::Place;
use bt_core::text::Str64;
use std::alloc::Global;
use typed_tree::expr::{AnyExpr, NumBuiltin, NumExpr, StrExpr};

/// What stands between two operands.
#[derive(Clone, Copy)]
pub enum Joint {
    Operator(BinOp),
    /// `&&`.
    And,
    /// `||`.
    Or,
}

/// A value of another type is needed at this place.
pub fn wrong_type(place: Place) -> TypeError
    ensures { result ≡ Broken (record { rule = WrongType; place = place }) }
{
    broken(Rule::WrongType, place)
}

/// A string of at most 63 bytes.
pub fn literal(text: &[u8], place: Place) -> Result<AnyExpr, TypeError>
    ensures refuses { Refuses (breaks (nat_lt STRING_BYTES (length text.now)) WrongType) place result }
    ensures made { IfOk result (λ e. made_of e ≡ made Str (Literal (short_text text.now) ∷ [])) }
    ensures not_memory { result ≢ Err NoMemory }
{
    if text.len() > STRING_BYTES {
        return Err(wrong_type(place));
    }
    Ok(AnyExpr::Str(StrExpr::Text(Str64::of(text))))
}

/// A builtin variable.
pub fn builtin(builtin: Builtin) -> AnyExpr
    ensures { made_of result ≡ builtin_made builtin }
{
    let number = match builtin {
        Builtin::Comm => return AnyExpr::Str(StrExpr::Comm),
        Builtin::Pid => NumBuiltin::Pid,
        Builtin::Tid => NumBuiltin::Tid,
        Builtin::Uid => NumBuiltin::Uid,
        Builtin::Gid => NumBuiltin::Gid,
        Builtin::Cpu => NumBuiltin::Cpu,
        Builtin::Nsecs => NumBuiltin::Nsecs,
        Builtin::Elapsed => NumBuiltin::Elapsed,
    };
    AnyExpr::Num(NumExpr::Builtin(number))
}

/// Lets a value go, and answers that a value of another type is needed at this place.
fn refused<K: Drop>(kept: K, place: Place) -> Result<AnyExpr, TypeError>
    ensures { result ≡ Err (Broken (record { rule = WrongType; place = place })) }
{
    drop(kept);
    Err(wrong_type(place))
}

/// An operator before a whole number, put on the heap.
fn prefixed(alloc: Global, op: UnOp, value: NumExpr) -> Result<AnyExpr, TypeError>
    ensures { Makes (made Int (Prefixed op ∷ num_parts value)) result }
{
    match Boxed::new(alloc, value) {
        Ok(value) => Ok(AnyExpr::Num(NumExpr::Unary { op, value })),
        Err(_) => Err(TypeError::Memory),
    }
}

/// An operator before a whole number.
pub fn unary(alloc: Global, op: UnOp, value: AnyExpr, place: Place) -> Result<AnyExpr, TypeError>
    ensures refuses { Refuses (whole_breaks (made_of value).shape) place result }
    ensures made { IfOk result (λ e. made_of e ≡ made Int (Prefixed op ∷ (made_of value).parts)) }
{
    match value {
        AnyExpr::Num(value) => prefixed(alloc, op, value),
        AnyExpr::Str(text) => refused(text, place),
    }
}

/// Two values put on the heap, one after the other.
fn boxed_two<V: Drop>(alloc: Global, left: V, right: V) -> Result<(Boxed<V>, Boxed<V>), Memory>
    ensures { IfOk result (λ boxed. boxed ≡ (left, right)) }
{
    let (right, left) = beside(right, Boxed::new(alloc, left))?;
    beside(left, Boxed::new(alloc, right))
}

/// Two whole numbers with an operator between them, put on the heap.
fn operated(alloc: Global, op: BinOp, left: NumExpr, right: NumExpr) -> Result<AnyExpr, TypeError>
    ensures { Makes (made Int (Joined op ∷ (num_parts left ++ num_parts right))) result }
{
    match boxed_two(alloc, left, right) {
        Ok((left, right)) => Ok(AnyExpr::Num(NumExpr::Binary { op, left, right })),
        Err(_) => Err(TypeError::Memory),
    }
}

/// A whole number and a second operand with an operator between them.
fn binary_number(
    alloc: Global,
    op: BinOp,
    left: NumExpr,
    right: AnyExpr,
    place: Place,
) -> Result<AnyExpr, TypeError>
    ensures refuses { Refuses (joined_breaks op Int (made_of right).shape) place result }
    ensures made { IfOk result (λ e. made_of e ≡ made Int (Joined op ∷ (num_parts left ++ (made_of right).parts))) }
{
    match right {
        AnyExpr::Num(right) => operated(alloc, op, left, right),
        AnyExpr::Str(text) => {
            drop(left);
            refused(text, place)
        }
    }
}

/// Two strings that are compared, put on the heap: `==` where `equal`, otherwise `!=`.
fn equated(alloc: Global, equal: bool, left: StrExpr, right: StrExpr) -> Result<AnyExpr, TypeError>
    ensures { Makes (made Int (Joined (compared equal) ∷ (str_parts left ++ str_parts right))) result }
{
    match boxed_two(alloc, left, right) {
        Ok((left, right)) => Ok(AnyExpr::Num(NumExpr::Compare { equal, left, right })),
        Err(_) => Err(TypeError::Memory),
    }
}

/// Two strings with an operator between them, which may be `==` or `!=` and no other one.
fn compare(
    alloc: Global,
    op: BinOp,
    left: StrExpr,
    right: StrExpr,
    place: Place,
) -> Result<AnyExpr, TypeError>
    ensures refuses { Refuses (joined_breaks op Str Str) place result }
    ensures made { IfOk result (λ e. made_of e ≡ made Int (Joined op ∷ (str_parts left ++ str_parts right))) }
{
    match op {
        BinOp::Eq => equated(alloc, true, left, right),
        BinOp::Ne => equated(alloc, false, left, right),
        _ => {
            drop(left);
            refused(right, place)
        }
    }
}

/// A string and a second operand with an operator between them.
fn binary_string(
    alloc: Global,
    op: BinOp,
    left: StrExpr,
    right: AnyExpr,
    place: Place,
) -> Result<AnyExpr, TypeError>
    ensures refuses { Refuses (joined_breaks op Str (made_of right).shape) place result }
    ensures made { IfOk result (λ e. made_of e ≡ made Int (Joined op ∷ (str_parts left ++ (made_of right).parts))) }
{
    match right {
        AnyExpr::Str(right) => compare(alloc, op, left, right, place),
        AnyExpr::Num(number) => {
            drop(left);
            refused(number, place)
        }
    }
}

/// Two operands with an operator between them: whole numbers, or for `==` and `!=` two values of one type.
fn binary(
    alloc: Global,
    op: BinOp,
    left: AnyExpr,
    right: AnyExpr,
    place: Place,
) -> Result<AnyExpr, TypeError>
    ensures refuses { Refuses (joined_breaks op (made_of left).shape (made_of right).shape) place result }
    ensures made { IfOk result (λ e. made_of e ≡ made Int (Joined op ∷ ((made_of left).parts ++ (made_of right).parts))) }
{
    match left {
        AnyExpr::Num(left) => binary_number(alloc, op, left, right, place),
        AnyExpr::Str(left) => binary_string(alloc, op, left, right, place),
    }
}

/// Two whole numbers put on the heap, of which the second is evaluated where the first asks for it: `&&` where `both`, otherwise
/// `||`.
fn both_or_either(
    alloc: Global,
    both: bool,
    left: NumExpr,
    right: NumExpr,
) -> Result<AnyExpr, TypeError>
    ensures { Makes (made Int (logical_part both ∷ (num_parts left ++ num_parts right))) result }
{
    match boxed_two(alloc, left, right) {
        Err(_) => Err(TypeError::Memory),
        Ok((left, right)) => {
            if both {
                Ok(AnyExpr::Num(NumExpr::AndThen { left, right }))
            } else {
                Ok(AnyExpr::Num(NumExpr::OrElse { left, right }))
            }
        }
    }
}

/// A whole number and a second operand with `&&` or `||` between them.
fn logical_number(
    alloc: Global,
    both: bool,
    left: NumExpr,
    right: AnyExpr,
    place: Place,
) -> Result<AnyExpr, TypeError>
    ensures refuses { Refuses (both_break Int (made_of right).shape) place result }
    ensures made { IfOk result (λ e. made_of e ≡ made Int (logical_part both ∷ (num_parts left ++ (made_of right).parts))) }
{
    match right {
        AnyExpr::Num(right) => both_or_either(alloc, both, left, right),
        AnyExpr::Str(text) => {
            drop(left);
            refused(text, place)
        }
    }
}

/// Two operands of which the second is evaluated where the first asks for it: `&&` where `both`, otherwise `||`.
fn logical(
    alloc: Global,
    both: bool,
    left: AnyExpr,
    right: AnyExpr,
    place: Place,
) -> Result<AnyExpr, TypeError>
    ensures refuses { Refuses (both_break (made_of left).shape (made_of right).shape) place result }
    ensures made { IfOk result (λ e. made_of e ≡ made Int (logical_part both ∷ ((made_of left).parts ++ (made_of right).parts))) }
{
    match left {
        AnyExpr::Num(left) => logical_number(alloc, both, left, right, place),
        AnyExpr::Str(text) => {
            drop(right);
            refused(text, place)
        }
    }
}

/// Two operands with something between them.
pub fn join(
    alloc: Global,
    joint: Joint,
    left: AnyExpr,
    right: AnyExpr,
    place: Place,
) -> Result<AnyExpr, TypeError>
    ensures refuses { Refuses (joint_breaks joint (made_of left).shape (made_of right).shape) place result }
    ensures made { IfOk result (λ e. made_of e ≡ made Int (joint_part joint ∷ ((made_of left).parts ++ (made_of right).parts))) }
{
    match joint {
        Joint::Operator(op) => binary(alloc, op, left, right, place),
        Joint::And => logical(alloc, true, left, right, place),
        Joint::Or => logical(alloc, false, left, right, place),
    }
}

/// A condition and two values put on the heap, one after the other.
fn boxed_three<C: Drop, V: Drop>(
    alloc: Global,
    condition: C,
    values: (V, V),
) -> Result<(Boxed<C>, (Boxed<V>, Boxed<V>)), Memory>
    ensures { IfOk result (λ boxed. boxed ≡ (condition, values)) }
{
    let (values, condition) = beside(values, Boxed::new(alloc, condition))?;
    beside(condition, boxed_two(alloc, values.0, values.1))
}

/// A choice of whole numbers, put on the heap.
fn chosen_number(
    alloc: Global,
    condition: NumExpr,
    yes: NumExpr,
    no: NumExpr,
) -> Result<AnyExpr, TypeError>
    ensures { Makes (made Int (Chosen ∷ (num_parts condition ++ (num_parts yes ++ num_parts no)))) result }
{
    match boxed_three(alloc, condition, (yes, no)) {
        Ok((condition, values)) => Ok(AnyExpr::Num(NumExpr::Choose {
            condition,
            yes: values.0,
            no: values.1,
        })),
        Err(_) => Err(TypeError::Memory),
    }
}

/// `condition ? yes : no` where what is chosen first is a whole number.
fn choose_number(
    alloc: Global,
    condition: NumExpr,
    yes: NumExpr,
    no: AnyExpr,
    place: Place,
) -> Result<AnyExpr, TypeError>
    ensures refuses { Refuses (same_breaks Int (made_of no).shape) place result }
    ensures made { IfOk result (λ e. made_of e ≡ made Int (Chosen ∷ (num_parts condition ++ (num_parts yes ++ (made_of no).parts)))) }
{
    match no {
        AnyExpr::Num(no) => chosen_number(alloc, condition, yes, no),
        AnyExpr::Str(text) => {
            drop(condition);
            drop(yes);
            refused(text, place)
        }
    }
}

/// A choice of strings, put on the heap.
fn chosen_string(
    alloc: Global,
    condition: NumExpr,
    yes: StrExpr,
    no: StrExpr,
) -> Result<AnyExpr, TypeError>
    ensures { Makes (made Str (Chosen ∷ (num_parts condition ++ (str_parts yes ++ str_parts no)))) result }
{
    match boxed_three(alloc, condition, (yes, no)) {
        Ok((condition, values)) => Ok(AnyExpr::Str(StrExpr::Choose {
            condition,
            yes: values.0,
            no: values.1,
        })),
        Err(_) => Err(TypeError::Memory),
    }
}

/// `condition ? yes : no` where what is chosen first is a string.
fn choose_string(
    alloc: Global,
    condition: NumExpr,
    yes: StrExpr,
    no: AnyExpr,
    place: Place,
) -> Result<AnyExpr, TypeError>
    ensures refuses { Refuses (same_breaks Str (made_of no).shape) place result }
    ensures made { IfOk result (λ e. made_of e ≡ made Str (Chosen ∷ (num_parts condition ++ (str_parts yes ++ (made_of no).parts)))) }
{
    match no {
        AnyExpr::Str(no) => chosen_string(alloc, condition, yes, no),
        AnyExpr::Num(number) => {
            drop(condition);
            drop(yes);
            refused(number, place)
        }
    }
}

/// `condition ? yes : no` where the condition is a whole number.
fn choose_by(
    alloc: Global,
    condition: NumExpr,
    yes: AnyExpr,
    no: AnyExpr,
    place: Place,
) -> Result<AnyExpr, TypeError>
    ensures refuses { Refuses (same_breaks (made_of yes).shape (made_of no).shape) place result }
    ensures made { IfOk result (λ e. made_of e
        ≡ made (made_of yes).shape (Chosen ∷ (num_parts condition ++ ((made_of yes).parts ++ (made_of no).parts)))) }
{
    match yes {
        AnyExpr::Num(yes) => choose_number(alloc, condition, yes, no, place),
        AnyExpr::Str(yes) => choose_string(alloc, condition, yes, no, place),
    }
}

/// `condition ? yes : no`: a whole number, and two values of one type.
pub fn choose(
    alloc: Global,
    condition: AnyExpr,
    yes: AnyExpr,
    no: AnyExpr,
    place: Place,
) -> Result<AnyExpr, TypeError>
    ensures refuses { Refuses (choose_breaks (made_of condition).shape (made_of yes).shape (made_of no).shape) place result }
    ensures made { IfOk result (λ e. made_of e
        ≡ made (made_of yes).shape (Chosen ∷ ((made_of condition).parts ++ ((made_of yes).parts ++ (made_of no).parts)))) }
{
    match condition {
        AnyExpr::Num(condition) => choose_by(alloc, condition, yes, no, place),
        AnyExpr::Str(text) => {
            drop(yes);
            drop(no);
            refused(text, place)
        }
    }
}
