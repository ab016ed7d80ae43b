// What typed bodies need: bytes of frame and slots of code. A sum that 64 bits do not hold is answered as want of memory: memory
// holds no body that needs so much.
ghost use Rattle.std.specs.Prelude.{◌≡◌, ◌+◌, ◌≤◌, ◌^◌, IfOk, OnErr, []};
ghost use Rattle.bt_core.specs.declared.map.Shape.{Shape};
ghost use Rattle.ir_code.specs.Figures.{by_shape, sizes_of};
ghost use Rattle.bt_lower.specs.Needs.{need, more, greater, listed, before_others, then_beside, under, IsTooMuch, IsTooMuchListed, value_need, values_need, number_need, text_need, jump_need, predicate_need};

use bt_core::map::Shape;
use bt_core::memory::{Memory, fitting};
use ir_code::figures::size_of;
use typed_tree::expr::{AnyExpr, NumExpr, StrExpr};
use typed_tree::stmt::Jump;

/// The bytes of frame that a construct needs, and the slots of its code.
#[derive(Clone, Copy)]
pub struct Need {
    pub frame: u64,
    pub code: u64,
}

/// What an expression needs, and the bytes of its value.
#[derive(Clone, Copy)]
pub struct Valued {
    pub size: u64,
    pub need: Need,
}

/// What expressions need that are evaluated from left to right, each beside the values of those before it, and the bytes of all
/// their values.
#[derive(Clone, Copy)]
pub struct Listed {
    pub sizes: u64,
    pub need: Need,
}

/// The sum of two numbers.
pub fn sum(a: u64, b: u64) -> Result<u64, Memory>
    ensures sum { IfOk result (λ sum. sum ≡ a + b) }
    ensures beyond { OnErr result (2 ^ 64 ≤ a + b) }
{
    fitting(a.checked_add(b))
}

/// So many bytes and slots.
pub fn figures(frame: u64, code: u64) -> Need
    ensures { result ≡ need frame code }
{
    Need { frame, code }
}

/// Some slots more.
pub fn more(slots: u64, n: Need) -> Result<Need, Memory>
    ensures more { IfOk result (λ all. all ≡ more slots n) }
    ensures beyond { OnErr result (IsTooMuch (more slots n)) }
{
    let code = sum(slots, n.code)?;
    Ok(figures(n.frame, code))
}

/// One after another: the greater frame, and all slots.
pub fn greater(a: Need, b: Need) -> Result<Need, Memory>
    ensures greater { IfOk result (λ all. all ≡ greater a b) }
    ensures beyond { OnErr result (IsTooMuch (greater a b)) }
{
    let code = sum(a.code, b.code)?;
    Ok(figures(a.frame.max(b.frame), code))
}

/// The one, and then the other beside so many bytes.
fn then_beside(bytes: u64, a: Need, b: Need) -> Result<Need, Memory>
    ensures beside { IfOk result (λ all. all ≡ then_beside bytes a b) }
    ensures beyond { OnErr result (IsTooMuch (then_beside bytes a b)) }
{
    let frame = sum(bytes, b.frame)?;
    greater(a, figures(frame, b.code))
}

/// One after another, and some slots more.
pub(crate) fn greater_and(slots: u64, a: Need, b: Need) -> Result<Need, Memory>
    ensures both { IfOk result (λ all. all ≡ more slots (greater a b)) }
    ensures beyond { OnErr result (IsTooMuch (more slots (greater a b))) }
{
    let both = greater(a, b)?;
    more(slots, both)
}

/// Two operands: the second is evaluated beside the value of the first, which has so many bytes, and some slots more.
fn operands(slots: u64, bytes: u64, left: Need, right: Need) -> Result<Need, Memory>
    ensures both { IfOk result (λ all. all ≡ then_beside bytes (more slots left) right) }
    ensures beyond { OnErr result (IsTooMuch (then_beside bytes (more slots left) right)) }
{
    let left = more(slots, left)?;
    then_beside(bytes, left, right)
}

/// So many bytes and slots beside a key.
pub fn under(keys: Listed, frame: u64, slots: u64) -> Result<Need, Memory>
    ensures under { IfOk result (λ all. all ≡ under keys frame slots) }
    ensures beyond { OnErr result (IsTooMuch (under keys frame slots)) }
{
    let frame = sum(keys.sizes, frame)?;
    let code = sum(slots, keys.need.code)?;
    Ok(figures(keys.need.frame.max(frame), code))
}

/// An expression before others.
fn before(v: Valued, rest: Listed) -> Result<Listed, Memory>
    ensures before { IfOk result (λ all. all ≡ before_others v rest) }
    ensures beyond { OnErr result (IsTooMuchListed (before_others v rest)) }
{
    let sizes = sum(v.size, rest.sizes)?;
    let need = then_beside(v.size, v.need, rest.need)?;
    Ok(Listed { sizes, need })
}

/// What an expression needs.
#[cycle(need)]
pub fn value_need(e: &AnyExpr) -> Result<Valued, Memory>
    ensures need { IfOk result (λ v. v ≡ value_need e.now) }
    ensures beyond { OnErr result (IsTooMuch (value_need e.now).need) }
    ensures room { IfOk result (λ v. v.size ≤ v.need.frame) }
{
    match e {
        AnyExpr::Num(e) => {
            let need = number_need(e)?;
            Ok(Valued { size: 8, need })
        }
        AnyExpr::Str(e) => {
            let need = text_need(e)?;
            Ok(Valued { size: 64, need })
        }
    }
}

/// What a whole number needs.
#[cycle(need)]
pub fn number_need(e: &NumExpr) -> Result<Need, Memory>
    ensures need { IfOk result (λ n. n ≡ number_need e.now) }
    ensures beyond { OnErr result (IsTooMuch (number_need e.now)) }
    ensures room { IfOk result (λ n. 8 ≤ n.frame) }
{
    match e {
        NumExpr::Number(_) | NumExpr::Builtin(_) | NumExpr::Var(_) => Ok(figures(8, 4)),
        NumExpr::Field(_) => Ok(figures(8, 8)),
        NumExpr::Map { keys, .. } | NumExpr::Agg { keys, .. } => keyed_need(keys.as_slice(), 8, 16),
        NumExpr::StepVar { .. } => Ok(figures(8, 12)),
        NumExpr::StepMap { keys, .. } => keyed_need(keys.as_slice(), 16, 32),
        NumExpr::Unary { value, .. } => {
            let value = number_need(value.get())?;
            more(8, value)
        }
        NumExpr::Binary { left, right, .. } => {
            let left = number_need(left.get())?;
            let right = number_need(right.get())?;
            operands(12, 8, left, right)
        }
        NumExpr::Compare { left, right, .. } => {
            let left = text_need(left.get())?;
            let right = text_need(right.get())?;
            operands(48, 64, left, right)
        }
        NumExpr::AndThen { left, right } | NumExpr::OrElse { left, right } => {
            let left = number_need(left.get())?;
            let right = number_need(right.get())?;
            greater_and(16, left, right)
        }
        NumExpr::Choose { condition, yes, no } => {
            let condition = number_need(condition.get())?;
            let yes = number_need(yes.get())?;
            let no = number_need(no.get())?;
            chosen(condition, yes, no)
        }
    }
}

/// What a string needs.
#[cycle(need)]
pub fn text_need(e: &StrExpr) -> Result<Need, Memory>
    ensures need { IfOk result (λ n. n ≡ text_need e.now) }
    ensures beyond { OnErr result (IsTooMuch (text_need e.now)) }
    ensures room { IfOk result (λ n. 64 ≤ n.frame) }
{
    match e {
        StrExpr::Text(_) => Ok(figures(64, 32)),
        StrExpr::Comm | StrExpr::Field(_) | StrExpr::Var(_) => Ok(figures(64, 24)),
        StrExpr::Map { keys, .. } => keyed_need(keys.as_slice(), 64, 40),
        StrExpr::Choose { condition, yes, no } => {
            let condition = number_need(condition.get())?;
            let yes = text_need(yes.get())?;
            let no = text_need(no.get())?;
            chosen(condition, yes, no)
        }
    }
}

/// What a key needs, and so many bytes and slots beside it.
#[cycle(need)]
fn keyed_need(keys: &[AnyExpr], frame: u64, slots: u64) -> Result<Need, Memory>
    ensures need { IfOk result (λ n. n ≡ under (listed (values_need keys.now)) frame slots) }
    ensures beyond { OnErr result (IsTooMuch (under (listed (values_need keys.now)) frame slots)) }
{
    let keys = values_need(keys)?;
    under(keys, frame, slots)
}

/// What expressions need that are evaluated from left to right.
#[cycle(need)]
pub fn values_need(es: &[AnyExpr]) -> Result<Listed, Memory>
    ensures need { IfOk result (λ all. all ≡ listed (values_need es.now)) }
    ensures beyond { OnErr result (IsTooMuch (listed (values_need es.now)).need) }
{
    let mut all = Listed {
        sizes: 0,
        need: figures(0, 0),
    };
    let mut left = es.len();
    while left > 0 {
        left -= 1;
        let value = value_need(&es[left])?;
        all = before(value, all)?;
    }
    Ok(all)
}

/// A test and two ways on, of which one is taken.
fn chosen(test: Need, one: Need, other: Need) -> Result<Need, Memory>
    ensures need { IfOk result (λ all. all ≡ more 8 (greater test (greater one other))) }
    ensures beyond { OnErr result (IsTooMuch (more 8 (greater test (greater one other)))) }
{
    let ways = greater(one, other)?;
    let all = greater(test, ways)?;
    more(8, all)
}

/// What a statement needs that goes elsewhere.
pub fn jump_need(jump: Jump) -> Need
    ensures { result ≡ jump_need jump }
{
    match jump {
        Jump::Exit => figures(0, 12),
        Jump::Break => figures(0, 4),
        Jump::Continue => figures(0, 4),
        Jump::Return => figures(0, 4),
    }
}

/// What a predicate needs, where there is one.
pub fn predicate_need(predicate: &Option<NumExpr>) -> Result<Need, Memory>
    ensures need { IfOk result (λ n. n ≡ predicate_need predicate.now) }
    ensures beyond { OnErr result (IsTooMuch (predicate_need predicate.now)) }
{
    match predicate {
        None => Ok(figures(0, 0)),
        Some(e) => {
            let need = number_need(e)?;
            more(8, need)
        }
    }
}

/// The bytes of values of these types.
pub fn sizes_of(shapes: &[Shape]) -> Result<u64, Memory>
    ensures sum { IfOk result (λ bytes. bytes ≡ sizes_of shapes.now) }
    ensures beyond { OnErr result (2 ^ 64 ≤ sizes_of shapes.now) }
{
    let mut bytes = 0;
    let mut left = shapes.len();
    while left > 0 {
        left -= 1;
        bytes = sum(size_of(shapes[left]), bytes)?;
    }
    Ok(bytes)
}
