// The check of an account.
ghost use Rattle.std.specs.Prelude.{◌≡◌, ◌≢◌, ◌⊎◌, List, Result, Err};
ghost use Rattle.bt_core.specs.declared.step.Step.{Step as MadeStep};
ghost use Rattle.bt_core.specs.Want.{out_of_memory};
ghost use Rattle.bt_meaning.specs.Jobs.{IsJob};
ghost use Rattle.account_check.specs.Answers.{IsAnswerTo};
ghost use Rattle.account_format.specs.declared.error.AccountError.{AccountError as Fault};
ghost use Rattle.account_format.specs.declared.error.AccountError.TheVariants.{Memory};

use crate::checking::found_of;
use crate::reading::{Written, read};
use crate::text::{first_difference, text_of};
use account_format::error::AccountError;
use account_steps::check::Checked;
use bt_ast::attached::Attached;
use bt_core::items::Items;
use bt_core::step::Step;
use recordings::recording::Recording;
use std::alloc::Global;
use total_laws::call_laws::programs_make_such_calls;
use typed_tree::script::Typed;

/// Checks an account: whether its entries tell the steps of a run of the script over the recording, and its text what they print. Gives
/// these steps, with their replies and items.
///
/// The entries are made as steps once more at new objects, and each actor's bodies are walked once along them; so it takes time linear in
/// the account, beside what the walks take.
///
/// # Errors
///
/// What is wrong: first with the form of the bytes, then with a step, then that the run is not at its end, and last with the text.
/// [`AccountError::Memory`] may come at any account.
pub fn verify(
    alloc: Global,
    recording: &Recording,
    attached: &Attached,
    script: &Typed,
    account: &[u8],
) -> Result<Items<Step>, AccountError>
    requires job { IsJob script.now attached.now recording.now }
    // What is answered is so.
    ensures answer { IsAnswerTo script.now attached.now recording.now account.now result }
    // There is one answer, and it comes unless memory runs out.
    ensures only { (other : Result (List MadeStep) Fault) → IsAnswerTo script.now attached.now recording.now account.now other →
        other ≢ Err (Memory out_of_memory) → (result ≡ other) ⊎ (result ≡ Err (Memory out_of_memory)) }
{
    programs_make_such_calls();
    check(alloc, recording, attached, script, account)
}

/// What is found of an account.
fn check(
    alloc: Global,
    recording: &Recording,
    attached: &Attached,
    script: &Typed,
    account: &[u8],
) -> Result<Items<Step>, AccountError>
    requires { IsJob script.now attached.now recording.now }
    ensures { IsAnswerTo script.now attached.now recording.now account.now result }
{
    programs_make_such_calls();
    let Written { entries, text } = read(alloc, recording, attached, script, account)?;
    let told = match found_of(alloc, recording, attached, script, entries)? {
        Checked::Wrong(place) => return Err(AccountError::WrongStep(place as u64)),
        Checked::Unfinished => return Err(AccountError::Unfinished),
        Checked::Right(told) => told,
    };
    let printed = text_of(alloc, script, &told)?;
    match first_difference(text, printed.as_slice()) {
        Some(at) => Err(AccountError::WrongText(at as u64)),
        None => Ok(told.steps),
    }
}
