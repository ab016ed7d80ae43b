// Bodies that are too large to have programs.
ghost use Rattle.std.specs.Prelude.{◌≡◌, ◌<◌, ◌^◌, None, Some, Err, ℕ, IfOk};
ghost use Rattle.bt_lower.specs.Needs.{tree_need, IsTooMuch};
ghost use Rattle.script_programs.specs.Sizes.{first_size_fault, size_fault, too_large, IsUntold};
ghost use Rattle.script_programs.specs.declared.error.SizeFault.{SizeFault as Fault};

use crate::error::{ProgramsError, SizeFault};
use bt_core::limits::{CODE_SLOTS, FRAME_BYTES};
use bt_lower::body_need::tree_need;
use bt_lower::need::Need;
use typed_tree::body::TypedBody;

/// What is too large of what a body needs.
fn too_large(need: Need) -> Option<SizeFault>
    ensures { result ≡ too_large need.frame need.code }
{
    if need.frame > FRAME_BYTES {
        return Some(SizeFault::FrameTooLarge(need.frame));
    }
    if need.code > CODE_SLOTS {
        return Some(SizeFault::CodeTooLarge(need.code));
    }
    None
}

/// Goes on where the body at a place is not too large.
///
/// # Errors
///
/// [`ProgramsError::TooLarge`] with this place where it is; [`ProgramsError::Memory`] only where the place has no number of 32 bits, or
/// what the body needs none of 64.
fn check_body(place: usize, body: &TypedBody) -> Result<(), ProgramsError>
    ensures fit { IfOk result (λ _. size_fault body.now ≡ None) }
    ensures refused { (at : ℕ) (fault : Fault) → result ≡ Err (ProgramsError.TooLarge at fault) → (at ≡ place) × (size_fault body.now ≡ Some fault) }
    ensures untold { result ≡ Err ProgramsError.Memory → place < 2 ^ 32 → IsTooMuch (tree_need body.now.tree) }
{
    let need = tree_need(&body.tree)?;
    let Some(fault) = too_large(need) else {
        return Ok(());
    };
    match u32::try_from(place) {
        Ok(body) => Err(ProgramsError::TooLarge { body, fault }),
        Err(_) => Err(ProgramsError::Memory),
    }
}

/// Goes on where no body is too large. It takes no memory.
pub(crate) fn check_sizes(bodies: &[TypedBody]) -> Result<(), ProgramsError>
    ensures fit { IfOk result (λ _. first_size_fault 0 bodies.now ≡ None) }
    ensures refused { (place : ℕ) (fault : Fault) → result ≡ Err (ProgramsError.TooLarge place fault) →
        first_size_fault 0 bodies.now ≡ Some (place, fault) }
    ensures untold { (place : ℕ) (fault : Fault) → result ≡ Err ProgramsError.Memory → first_size_fault 0 bodies.now ≡ Some (place, fault) →
        IsUntold bodies.now place }
{
    for (place, body) in bodies.iter().enumerate() {
        match check_body(place, body) {
            Ok(()) => {}
            Err(error) => return Err(error),
        }
    }
    Ok(())
}
