// Aggregations.
ghost use Rattle.std.specs.Prelude.{◌≡◌, ◌≢◌, Err, IfOk, is_none, not};
ghost use Rattle.std.specs.Option.{option_copied};
ghost use Rattle.typed_tree.specs.Parts.{number_parts, stmt_parts};
ghost use Rattle.typed_tree.specs.Scope.{is_fine_agg};
ghost use Rattle.expr_types.specs.declared.fault.Rule.TheVariants.{BadBounds};
ghost use Rattle.expr_types.specs.declared.fault.TypeError.TheVariants.{Memory as NoMemory};
ghost use Rattle.expr_types.specs.Judge.{Refuses};
ghost use Rattle.expr_types.specs.Rules.{breaks};
ghost use Rattle.expr_types.specs.Walk.{of_map};
ghost use Rattle.bt_types.specs.Told.{gather_told, gathered_told, function_kind, kind_of_call, number_of_call};
ghost use Rattle.bt_types.specs.Done.{Does, DoesIn};

use crate::assign::check_number;
use crate::write::write_key;
use bt_ast::expr::{Expr, MapRef};
use bt_ast::gathering::{GATHERINGS, Gathering};
use bt_ast::stmt::AggCall;
use bt_core::beside::beside;
use bt_core::map::{AggKind, MapKind};
use bt_core::place::Place;
use expr_types::expr::check_key;
use expr_types::fault::{Rule, TypeError};
use expr_types::known::Known;
use expr_types::maps::Keyed;
use expr_types::rules::{broken, is_fine_agg};
use std::alloc::Global;
use typed_tree::expr::NumExpr;
use typed_tree::stmt::TypedStmt;

/// The kind of the first row with a function.
fn function_kind(rows: &[(Gathering, AggKind)], function: Gathering) -> AggKind
    ensures { result ≡ function_kind rows.now function }
{
    for (row, kind) in rows {
        if *row == function {
            return *kind;
        }
    }
    AggKind::Count
}

/// The kind of an aggregation.
fn kind_of_call(call: &AggCall) -> AggKind
    ensures { result ≡ kind_of_call call.now }
{
    match call {
        AggCall::Count => AggKind::Count,
        AggCall::Gather { function, .. } => function_kind(&GATHERINGS, *function),
        AggCall::Lhist { min, max, step, .. } => AggKind::Lhist {
            min: *min,
            max: *max,
            step: *step,
        },
    }
}

/// The number that an aggregation gathers.
fn number_of_call(call: &AggCall) -> Option<&Expr>
    ensures { option_copied result ≡ number_of_call call.now }
{
    match call {
        AggCall::Count => None,
        AggCall::Gather { number, .. } => Some(number),
        AggCall::Lhist { number, .. } => Some(number),
    }
}

/// The number that an aggregation gathers, as a typed one. A string is refused at the aggregation's word.
fn check_gathered(
    alloc: Global,
    known: &mut Known,
    call: &AggCall,
    word: Place,
) -> Result<Option<NumExpr>, TypeError>
    ensures does { Does (gathered_told (number_of_call call.now) word) number_parts known.old known.new result }
    ensures there { IfOk result (λ number. is_none number ≡ is_none (number_of_call call.now)) }
{
    match number_of_call(call) {
        None => Ok(None),
        Some(number) => {
            let number = check_number(alloc, known, number, word)?;
            Ok(Some(number))
        }
    }
}

/// The bounds of a linear histogram.
///
/// # Errors
///
/// [`Rule::BadBounds`] at the place.
fn check_bounds(kind: AggKind, place: Place) -> Result<(), TypeError>
    ensures refuses { Refuses (breaks (not (is_fine_agg kind)) BadBounds) place result }
    ensures not_memory { result ≢ Err NoMemory }
{
    if !is_fine_agg(kind) {
        return Err(broken(Rule::BadBounds, place));
    }
    Ok(())
}

/// `map[keys] = sum(number)` and the like: the key, the number, the bounds of a histogram, the map.
pub(crate) fn check_gather(
    alloc: Global,
    known: &mut Known,
    map: &MapRef,
    call: &AggCall,
    word: Place,
) -> Result<TypedStmt, TypeError>
    ensures { DoesIn (gather_told (of_map map.now) (kind_of_call call.now) (gathered_told (number_of_call call.now) word) word) stmt_parts
        known.old known.new result }
{
    let keyed = check_key(alloc, known, map)?;
    let number = check_gathered(alloc, known, call, word);
    let (keyed, number) = beside(keyed, number)?;
    let kind = kind_of_call(call);
    let bounds = check_bounds(kind, word);
    let (read, ()) = beside((keyed, number), bounds)?;
    let of = MapKind::Aggs(kind);
    let written = write_key(alloc, known, &map.name, of, &read.0.keys, map.place);
    let ((Keyed { map, keys }, number), ()) = beside(read, written)?;
    Ok(TypedStmt::Gather {
        map,
        keys,
        kind,
        number,
    })
}
