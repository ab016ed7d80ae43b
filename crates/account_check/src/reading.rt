// The entries and the text of an account, read.
ghost use Rattle.std.specs.Prelude.{◌≡◌, ℕ, IfOk, IfErr, Err};
ghost use Rattle.account_format.specs.Accounts.{IsAccount};
ghost use Rattle.account_format.specs.Scopes.{setting_in};
ghost use Rattle.bt_meaning.specs.Jobs.{IsJob};
ghost use Rattle.account_check.specs.Accounts.{named};
ghost use Rattle.account_check.specs.Answers.{IsAnswerTo};

use account_format::entries::Entries;
use account_format::error::AccountError;
use account_format::reading::{Account, read_account};
use account_format::scope::Scope;
use bt_ast::attached::Attached;
use bt_core::items::Items;
use bt_core::memory::Memory;
use bt_core::step::Step;
use recordings::recording::Recording;
use std::alloc::Global;
use typed_tree::script::Typed;

/// The entries of an account as a list of steps, without replies and items, and its text where it lies.
#[derive(Drop)]
pub(crate) struct Written<'a> {
    pub(crate) entries: Items<Step>,
    pub(crate) text: &'a [u8],
}

/// What the entries of an account may name.
fn scope_of<'a>(recording: &Recording, attached: &Attached, script: &'a Typed) -> Scope<'a>
    requires { IsJob script.now attached.now recording.now }
    ensures { setting_in result ≡ named script.now attached.now recording.now }
{
    Scope {
        actors: recording.cpus.len() as u32 + 1,
        ticks: attached.ticks.len() as u32,
        maps: script.maps.as_slice(),
    }
}

/// The steps of the entries that are left.
fn list_of(alloc: Global, entries: &mut Entries<'_>) -> Result<Items<Step>, Memory>
    ensures { IfOk result (λ list. list ≡ entries.old) }
{
    let mut list = Vec::new(alloc);
    while let Some(step) = entries.next(alloc)? {
        list.push(step)?;
    }
    Ok(Items::of(list))
}

/// Reads an account.
///
/// [`AccountError::BadAccount`] and [`AccountError::Memory`] are its errors.
pub(crate) fn read<'a>(
    alloc: Global,
    recording: &Recording,
    attached: &Attached,
    script: &'a Typed,
    account: &'a [u8],
) -> Result<Written<'a>, AccountError>
    requires { IsJob script.now attached.now recording.now }
    ensures read { IfOk result (λ written. IsAccount (named script.now attached.now recording.now) account.now written.entries written.text.now) }
    ensures wrong { IfErr result (λ error. IsAnswerTo script.now attached.now recording.now account.now (Err error)) }
{
    let scope = scope_of(recording, attached, script);
    let Account { mut entries, text } = read_account(alloc, &scope, account)?;
    let entries = list_of(alloc, &mut entries)?;
    Ok(Written { entries, text })
}
