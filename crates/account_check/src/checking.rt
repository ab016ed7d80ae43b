// The entries of an account, checked for all actors by walks.
ghost use Rattle.std.specs.Prelude.{◌≡◌, ℕ, ◌+◌, length, IfOk};
ghost use Rattle.std.specs.List.{AllByRecursion};
ghost use Rattle.actor_plan.specs.Plans.{Plan};
ghost use Rattle.account_format.specs.Entries.{IsEntry};
ghost use Rattle.bt_meaning.specs.Jobs.{IsJob};
ghost use Rattle.bt_meaning.specs.Walks.{walking};
ghost use Rattle.account_steps.specs.Answers.{IsFound};
ghost use Rattle.account_steps.specs.Plans.{HavePlans};
ghost use Rattle.account_check.specs.Accounts.{named, run};

use crate::bodies::walks_of;
use crate::walks::walks_take_few;
use account_steps::check::{Checked, check_steps};
use actor_plan::bodies::Bodies;
use bt_ast::attached::Attached;
use bt_core::items::Items;
use bt_core::memory::Memory;
use bt_core::step::Step;
use recordings::recording::Recording;
use std::alloc::Global;
use typed_tree::script::Typed;

/// What is found of entries, by bodies with the plans of the script's walks.
fn found_by<B: Bodies>(
    alloc: Global,
    bodies: &mut [B],
    recording: &Recording,
    attached: &Attached,
    script: &Typed,
    entries: Items<Step>,
) -> Result<Checked, Memory>
    ghost plans: { ℕ → Plan }
    requires job { IsJob script.now attached.now recording.now }
    requires walks { plans ≡ walking script.now (length recording.now.cpus + 1) }
    requires plans { HavePlans B.plan plans (length recording.now.cpus) bodies.old }
    requires entries { AllByRecursion (IsEntry (named script.now attached.now recording.now)) entries }
    ensures { IfOk result (IsFound (run script.now attached.now recording.now) entries) }
{
    walks_take_few();
    let found = check_steps(
        alloc,
        bodies,
        recording,
        attached,
        &script.maps,
        script.uses_exit,
        entries,
    )?;
    Ok(found)
}

/// The same, where the plans need no name.
fn found_with<B: Bodies>(
    alloc: Global,
    bodies: &mut [B],
    recording: &Recording,
    attached: &Attached,
    script: &Typed,
    entries: Items<Step>,
) -> Result<Checked, Memory>
    requires job { IsJob script.now attached.now recording.now }
    requires plans { HavePlans B.plan (walking script.now (length recording.now.cpus + 1)) (length recording.now.cpus) bodies.old }
    requires entries { AllByRecursion (IsEntry (named script.now attached.now recording.now)) entries }
    ensures { IfOk result (IsFound (run script.now attached.now recording.now) entries) }
{
    found_by(alloc, bodies, recording, attached, script, entries)
}

/// What is found of entries.
///
/// [`Memory`] is the one error.
pub(crate) fn found_of(
    alloc: Global,
    recording: &Recording,
    attached: &Attached,
    script: &Typed,
    entries: Items<Step>,
) -> Result<Checked, Memory>
    requires job { IsJob script.now attached.now recording.now }
    requires entries { AllByRecursion (IsEntry (named script.now attached.now recording.now)) entries }
    ensures { IfOk result (IsFound (run script.now attached.now recording.now) entries) }
{
    let mut bodies = walks_of(alloc, script, recording.cpus.len() as u32 + 1)?;
    let found = found_with(
        alloc,
        bodies.as_mut_slice(),
        recording,
        attached,
        script,
        entries,
    )?;
    Ok(found)
}
