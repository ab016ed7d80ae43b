// Variables of a body.
ghost use Rattle.std.specs.Prelude.{◌≡◌, ◌≤◌, ◌^◌, ◌∷◌, [], Err, length};
ghost use Rattle.bt_core.specs.declared.map.Shape.TheVariants.{Int};
ghost use Rattle.typed_tree.specs.Parts.{made, made_of, num_parts, Stepped, VarOf};
ghost use Rattle.expr_types.specs.Mentions.{ReadsVar, OfVar, VarWord};
ghost use Rattle.expr_types.specs.Walk.{at, seen, step_seen, OnVar};
ghost use Rattle.expr_types.specs.declared.fault.TypeError.TheVariants.{Memory as NoMemory};
ghost use Rattle.expr_types.specs.Checked.{Checks, ChecksNumber};

use crate::fault::{Rule, TypeError};
use crate::known::{Known, number_of};
use crate::leaf::wrong_type;
use crate::rules::broken;
use bt_ast::expr::VarRef;
use bt_core::map::Shape;
use bt_core::place::Place;
use typed_tree::expr::{AnyExpr, NumExpr, StrExpr};

/// The variable of a number.
fn variable_of(shape: Shape, number: u32) -> AnyExpr
    ensures { made_of result ≡ made shape (VarOf number shape ∷ []) }
{
    match shape {
        Shape::Int => AnyExpr::Num(NumExpr::Var(number)),
        Shape::Str => AnyExpr::Str(StrExpr::Var(number)),
    }
}

/// A variable that is read.
#[tactic(auto, using(crate::proofs::Constructs::var_checked, crate::proofs::Constructs::var_refused))]
pub fn variable(known: &Known, var: &VarRef) -> Result<AnyExpr, TypeError>
    ensures checks { Checks (seen (at var.now.place (ReadsVar var.now.name) ∷ []) (OfVar var.now.name) (VarWord var.now.name ∷ [])) known.now known.now result }
    ensures beyond { result ≡ Err NoMemory → 2 ^ 32 ≤ length known.now.vars }
{
    match known.var(var.name.as_slice()) {
        None => Err(broken(Rule::NotSet, var.place)),
        Some((place, shape)) => {
            let number = number_of(place)?;
            Ok(variable_of(shape, number))
        }
    }
}

/// `++` or `--` of the variable of a number.
fn stepped(var: u32, plus: bool, prefix: bool) -> NumExpr
    ensures { num_parts result ≡ (Stepped plus prefix ∷ VarOf var Int ∷ []) }
{
    NumExpr::StepVar { var, plus, prefix }
}

/// `++` or `--` of a variable, which begins at a place.
#[tactic(auto, using(crate::proofs::Constructs::step_var_checked, crate::proofs::Constructs::step_unset, crate::proofs::Constructs::step_text))]
pub fn step_variable(
    known: &Known,
    var: &VarRef,
    plus: bool,
    prefix: bool,
    place: Place,
) -> Result<NumExpr, TypeError>
    ensures checks { ChecksNumber (step_seen plus prefix place (OnVar var.now.name var.now.place)) known.now known.now result }
    ensures beyond { result ≡ Err NoMemory → 2 ^ 32 ≤ length known.now.vars }
{
    match known.var(var.name.as_slice()) {
        None => Err(broken(Rule::NotSet, var.place)),
        Some((at, shape)) => match shape {
            Shape::Str => Err(wrong_type(place)),
            Shape::Int => {
                let number = number_of(at)?;
                Ok(stepped(number, plus, prefix))
            }
        },
    }
}
