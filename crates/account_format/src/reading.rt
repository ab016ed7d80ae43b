// Reading an account.
ghost use Rattle.std.specs.Prelude.{◌≡◌, ◌≢◌, ◌⊎◌, ◌-◌, ◌≤◌, ℕ, List, length, IfOk, IfErr, IsOkAnd, Err};
ghost use Rattle.bt_core.specs.declared.step.Step.{Step};
ghost use Rattle.bt_core.specs.Want.{out_of_memory};
ghost use Rattle.account_format.specs.declared.error.AccountFault.TheVariants as fault;
ghost use Rattle.std.specs.Option.{option_map};
ghost use Rattle.account_format.specs.Accounts.{IsAccount};
ghost use Rattle.account_format.specs.Answers.{IsFault};
ghost use Rattle.account_format.specs.Reading.{magic_at};
ghost use Rattle.account_format.specs.Scopes.{setting_in};
ghost use Rattle.account_format.specs.Wrong.{IsWrongAccount};

use crate::entries::Entries;
use crate::entry::skip_entries;
use crate::error::AccountFault;
use crate::number::{bytes_at, u64_at};
use crate::scope::Scope;
use std::alloc::Global;

/// The bytes that an account begins with.
pub(crate) const MAGIC: &[u8] = b"BACCT001";

/// An account that was read: its entries, and its text where it lies.
#[derive(Drop)]
pub struct Account<'a> {
    pub entries: Entries<'a>,
    pub text: &'a [u8],
}

/// The account that the bytes spell, of steps in this scope.
///
/// The bytes are read once, from the front. Memory is taken for one key at a time, and never for what the bytes announce.
///
/// # Errors
///
/// Where the first part begins that is wrong, or else where the bytes begin that are left over. [`AccountFault::Memory`] may come at
/// any bytes.
pub fn read_account<'a>(
    alloc: Global,
    scope: &Scope<'a>,
    bytes: &'a [u8],
) -> Result<Account<'a>, AccountFault>
    // What is read are steps as entries tell them, and the bytes are the account of these and the text.
    ensures read { IfOk result (λ account. IsAccount (setting_in scope.now) bytes.now account.entries account.text.now) }
    // Where the bytes are the account of steps and a text, these are read, unless memory runs out.
    ensures only { (steps : List Step) (text : List ℕ) → IsAccount (setting_in scope.now) bytes.now steps text
        → IsOkAnd result (λ account. (account.entries ≡ steps) × (account.text.now ≡ text)) ⊎ (result ≡ Err (fault.Memory out_of_memory)) }
    // Where bytes are told to be wrong, they are wrong there.
    ensures wrong { (offset : ℕ) → result ≡ Err (fault.BadAccount offset) → IsWrongAccount (setting_in scope.now) bytes.now offset }
    // Where bytes are wrong, they are told to be wrong there, unless memory runs out.
    ensures refused { (offset : ℕ) → IsWrongAccount (setting_in scope.now) bytes.now offset
        → (result ≡ Err (fault.BadAccount offset)) ⊎ (result ≡ Err (fault.Memory out_of_memory)) }
{
    read(alloc, scope, bytes)
}

/// The account that the bytes spell, or where they are wrong.
fn read<'a>(alloc: Global, scope: &Scope<'a>, bytes: &'a [u8]) -> Result<Account<'a>, AccountFault>
    ensures read { IfOk result (λ account. IsAccount (setting_in scope.now) bytes.now account.entries account.text.now) }
    ensures fault { IfErr result (IsFault (setting_in scope.now) bytes.now) }
{
    let Some(counted) = magic_at(bytes) else {
        return Err(AccountFault::BadAccount(0));
    };
    let Some((count, listed)) = u64_at(counted) else {
        return Err(bad_from(bytes, counted));
    };
    let (sized, whole) = skip_entries(alloc, scope, count, listed)?;
    if !whole {
        return Err(bad_from(bytes, sized));
    }
    let Some((size, rest)) = u64_at(sized) else {
        return Err(bad_from(bytes, sized));
    };
    if (rest.len() as u64) < size {
        return Err(bad_from(bytes, rest));
    }
    let (text, rest) = rest.split_at(size as usize);
    if !rest.is_empty() {
        return Err(bad_from(bytes, rest));
    }
    let entries = Entries {
        scope: *scope,
        bytes: listed,
        left: count,
    };
    Ok(Account { entries, text })
}

/// The bytes behind the magic.
#[tactic(auto, unfolding(crate::specs::Reading::magic_at))]
fn magic_at(bytes: &[u8]) -> Option<&[u8]>
    ensures { option_map (λ rest. rest.now) result ≡ magic_at bytes.now }
{
    let Some((front, rest)) = bytes_at(bytes, 8) else {
        return None;
    };
    if front == MAGIC { Some(rest) } else { None }
}

/// The fault that what is wrong begins where these bytes do, which are the last ones of all.
fn bad_from(all: &[u8], rest: &[u8]) -> AccountFault
    requires { length rest.now ≤ length all.now }
    ensures { result ≡ fault.BadAccount (length all.now - length rest.now) }
{
    AccountFault::BadAccount((all.len() - rest.len()) as u64)
}
