// Fields of the event.
ghost use Rattle.std.specs.Prelude.{◌≡◌, ◌∷◌, [], None, MatchOption};
ghost use Rattle.typed_tree.specs.Parts.{made_of};
ghost use Rattle.typed_tree.specs.Scope.{shape_of_field};
ghost use Rattle.expr_types.specs.Mentions.{ReadsField, Args, OfField, FieldWord};
ghost use Rattle.expr_types.specs.Walk.{at, seen};
ghost use Rattle.expr_types.specs.Join.{IsFieldRead};
ghost use Rattle.expr_types.specs.Checked.{Checks};

use crate::fault::{Rule, TypeError};
use crate::known::Known;
use crate::rules::broken;
use bt_core::items::Items;
use bt_core::memory::TryCopy;
use bt_core::place::Place;
use event_layout::field::{Field, FieldKind};
use std::alloc::Global;
use typed_tree::expr::{AnyExpr, NumExpr, StrExpr};

/// The field of a kind that a script reads, as an expression.
fn value_of_field(field: Field) -> Option<AnyExpr>
    ensures { MatchOption result (shape_of_field field.kind ≡ None) (λ e. IsFieldRead field (made_of e)) }
{
    match field.kind {
        FieldKind::Number => Some(AnyExpr::Num(NumExpr::Field(field))),
        FieldKind::Chars => Some(AnyExpr::Str(StrExpr::Field(field))),
        FieldKind::DataLoc => Some(AnyExpr::Str(StrExpr::Field(field))),
        FieldKind::Other => None,
    }
}

/// `args.name`: `args` stands at a place, and the field's name at another.
#[tactic(auto, using(crate::proofs::Constructs::field_refused, crate::proofs::Constructs::field_unknown, crate::proofs::Constructs::field_unreadable))]
pub fn field(
    alloc: Global,
    known: &Known,
    name: &Items<u8>,
    place: Place,
    word: Place,
) -> Result<AnyExpr, TypeError>
    ensures { Checks (seen (at place Args ∷ at word (ReadsField name.now) ∷ []) (OfField name.now) (FieldWord name.now ∷ [])) known.now known.now result }
{
    if known.event.is_none() {
        return Err(broken(Rule::NoEvent, place));
    }
    let Some(field) = known.field(name.as_slice()) else {
        return Err(broken(Rule::UnknownField, word));
    };
    match value_of_field(field.try_copy(alloc)?) {
        None => Err(broken(Rule::FieldNotReadable, word)),
        Some(value) => Ok(value),
    }
}
