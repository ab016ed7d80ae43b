// Entries at the front of the bytes.
ghost use Rattle.std.specs.Prelude.{◌≡◌, ◌↔◌, IfOk, IsTrue, length};
ghost use Rattle.std.specs.Option.{option_map};
ghost use Rattle.account_format.specs.Scopes.{setting_in};
ghost use Rattle.account_format.specs.Reading.{head_at, entry_at, steps_at, behind};

use crate::call::call_at;
use crate::kind::{Kind, kind_at};
use crate::number::{u32_at, u64_at};
use crate::scope::Scope;
use bt_core::memory::Memory;
use bt_core::step::{Reply, Step};
use std::alloc::Global;

/// The actor, the stamp and the kind of an entry, and the bytes after them.
#[tactic(auto, unfolding(crate::specs::Reading::head_at))]
fn head_at(actors: u32, bytes: &[u8]) -> Option<((u32, (u64, Kind)), &[u8])>
    ensures { option_map (λ head. (head.0, head.1.now)) result ≡ head_at actors bytes.now }
{
    let Some((actor, bytes)) = u32_at(bytes) else {
        return None;
    };
    let Some((stamp, bytes)) = u64_at(bytes) else {
        return None;
    };
    let Some((kind, rest)) = kind_at(bytes) else {
        return None;
    };
    if actor < actors {
        Some(((actor, (stamp, kind)), rest))
    } else {
        None
    }
}

/// The step that an entry tells, with no reply and no item, and the bytes after it. [`Memory`] where there is no room for its key.
#[tactic(auto, unfolding(crate::specs::Reading::entry_at))]
pub(crate) fn entry_at<'b>(
    alloc: Global,
    scope: &Scope<'_>,
    bytes: &'b [u8],
) -> Result<Option<(Step, &'b [u8])>, Memory>
    ensures { IfOk result (λ read. option_map (λ entry. (entry.0, entry.1.now)) read ≡ entry_at (setting_in scope.now) bytes.now) }
{
    let Some(((actor, (stamp, kind)), rest)) = head_at(scope.actors, bytes) else {
        return Ok(None);
    };
    let Some(((object, op), rest)) = call_at(alloc, scope, actor, kind, rest)? else {
        return Ok(None);
    };
    let step = Step {
        actor,
        object,
        stamp,
        op,
        reply: Reply::Done,
    };
    Ok(Some((step, rest)))
}

/// Passes over so many entries, up to the first that is wrong. Answers the bytes behind them, and whether they were all there.
///
/// [`Memory`] where there is no room for a key: one is kept at a time.
pub(crate) fn skip_entries<'b>(
    alloc: Global,
    scope: &Scope<'_>,
    count: u64,
    bytes: &'b [u8],
) -> Result<(&'b [u8], bool), Memory>
    ensures behind { IfOk result (λ read. read.0.now ≡ behind (setting_in scope.now) count bytes.now) }
    ensures whole { IfOk result (λ read. IsTrue read.1 ↔ (length (steps_at (setting_in scope.now) count bytes.now) ≡ count)) }
{
    let mut rest = bytes;
    for _place in 0..count {
        let Some((_, after)) = entry_at(alloc, scope, rest)? else {
            return Ok((rest, false));
        };
        rest = after;
    }
    Ok((rest, true))
}
