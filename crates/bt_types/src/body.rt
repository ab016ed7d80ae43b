// Bodies: a probe with one of its events, or with none.
ghost use Rattle.std.specs.Prelude.{◌≡◌, IfOk, MatchResult, map};
ghost use Rattle.std.specs.Option.{option_copied, option_map};
ghost use Rattle.event_layout.specs.declared.format.Format.{Format as FormatValue};
ghost use Rattle.typed_tree.specs.Bodies.{predicate_parts, tree_parts};
ghost use Rattle.expr_types.specs.declared.known.Var.{Var as VarValue};
ghost use Rattle.bt_types.specs.Bodies.{body_told, layout_at, predicate_told};
ghost use Rattle.bt_types.specs.Done.{Does};
ghost use Rattle.expr_types.specs.Judge.{SaysFault, judged};
ghost use Rattle.expr_types.specs.Known.{begun};
ghost use Rattle.bt_types.specs.Open.{BodyDone};

use crate::assign::check_condition;
use crate::stmt::check_block;
use bt_ast::attached::BodyPoint;
use bt_ast::expr::Expr;
use bt_ast::probe::Probe;
use bt_core::beside::beside;
use bt_core::items::Items;
use bt_core::memory::{Memory, TryCopy};
use event_layout::format::Format;
use event_layout::layout::Layout;
use expr_types::fault::TypeError;
use expr_types::known::Known;
use std::alloc::Global;
use typed_tree::body::TypedTree;
use typed_tree::expr::NumExpr;

/// A body that was checked, whose maps and formats are not all decided: its tree, its event's layout where it has one, and
/// the numbers of the maps and calls that it has named.
#[derive(Drop)]
pub struct OpenBody {
    pub tree: TypedTree,
    pub layout: Option<Layout>,
    pub named: Items<u32>,
    pub calls: Items<u32>,
}

/// The predicate, where there is one.
#[tactic(auto, using(crate::proofs::Turns::done_next, crate::proofs::Turns::done_says, crate::proofs::Turns::refused_next))]
fn check_predicate(
    alloc: Global,
    known: &mut Known,
    predicate: &Option<Expr>,
) -> Result<Option<NumExpr>, TypeError>
    ensures { Does (predicate_told predicate.now) predicate_parts known.old known.new result }
{
    match predicate {
        None => Ok(None),
        Some(predicate) => {
            let predicate = check_condition(alloc, known, predicate)?;
            Ok(Some(predicate))
        }
    }
}

/// The predicate and the block of a probe.
fn check_tree(alloc: Global, known: &mut Known, probe: &Probe) -> Result<TypedTree, TypeError>
    ensures does { Does (body_told probe.now) tree_parts known.old known.new result }
    ensures variables { IfOk result (λ tree. tree.variables ≡ map (λ (v : VarValue). v.shape) known.new.vars) }
{
    let predicate = check_predicate(alloc, known, &probe.predicate)?;
    let block = check_block(alloc, known, false, &probe.block);
    let (predicate, block) = beside(predicate, block)?;
    let shapes = known.vars.shapes(alloc);
    let ((predicate, block), variables) = beside((predicate, block), shapes)?;
    Ok(TypedTree {
        variables,
        predicate,
        block,
    })
}

/// A copy of the layout of a format, where there is one.
fn layout_of(alloc: Global, format: Option<&Format>) -> Result<Option<Layout>, Memory>
    ensures { IfOk result (λ layout. layout ≡ option_map (λ (f : FormatValue). f.layout) (option_copied format.entry)) }
{
    match format {
        None => Ok(None),
        Some(format) => Ok(Some(format.layout.try_copy(alloc)?)),
    }
}

/// The layout of the event of a body.
fn layout_at(alloc: Global, formats: &[Format], point: BodyPoint) -> Result<Option<Layout>, Memory>
    ensures { IfOk result (λ layout. layout ≡ layout_at formats.now point) }
{
    match point {
        BodyPoint::Begin => Ok(None),
        BodyPoint::End => Ok(None),
        BodyPoint::Interval => Ok(None),
        BodyPoint::Event(place) => layout_of(alloc, formats.get(place as usize)),
    }
}

/// Begins a body: its event is known, and the event's layout is made once more.
fn begin(
    alloc: Global,
    known: &mut Known,
    formats: &[Format],
    point: BodyPoint,
) -> Result<Option<Layout>, Memory>
    ensures { IfOk result (λ layout. (layout ≡ layout_at formats.now point) × (known.new ≡ begun known.old (layout_at formats.now point))) }
{
    let event = layout_at(alloc, formats, point)?;
    let layout = layout_at(alloc, formats, point);
    let (event, layout) = beside(event, layout)?;
    known.begin(alloc, event);
    Ok(layout)
}

/// The numbers of the maps and of the calls that a body has named.
fn numbers_of(alloc: Global, known: &Known) -> Result<(Items<u32>, Items<u32>), Memory>
    ensures { IfOk result (λ numbers. (numbers.0 ≡ known.now.named) × (numbers.1 ≡ known.now.calls)) }
{
    let named = Items::from_slice(alloc, known.named.as_slice())?;
    let calls = Items::from_slice(alloc, known.calls.as_slice())?;
    Ok((named, calls))
}

/// A body of a probe.
pub(crate) fn check_body(
    alloc: Global,
    known: &mut Known,
    formats: &[Format],
    point: BodyPoint,
    probe: &Probe,
) -> Result<OpenBody, TypeError>
    ensures { MatchResult result (λ body. BodyDone formats.now point probe.now known.old known.new body)
        (λ e. SaysFault (judged (body_told probe.now).points (begun known.old (layout_at formats.now point))) e) }
{
    let layout = begin(alloc, known, formats, point)?;
    let tree = check_tree(alloc, known, probe);
    let (layout, tree) = beside(layout, tree)?;
    let numbers = numbers_of(alloc, known);
    let ((layout, tree), (named, calls)) = beside((layout, tree), numbers)?;
    Ok(OpenBody {
        tree,
        layout,
        named,
        calls,
    })
}
