// The bodies of a script for all actors.
ghost use Rattle.std.specs.Prelude.{◌≡◌, ℕ, ◌<◌, length, slice_index_or, IfOk};
ghost use Rattle.bt_meaning.specs.Walks.{walking};
ghost use Rattle.account_check.specs.declared.walks.Walks.{Walks as Walking};
ghost use Rattle.account_check.specs.Plans.{plan_of};

use crate::walks::Walks;
use bt_core::memory::Memory;
use std::alloc::Global;
use typed_tree::script::Typed;

/// The walks of a script's bodies, for each of so many actors.
pub(crate) fn walks_of<'a>(
    alloc: Global,
    script: &'a Typed,
    actors: u32,
) -> Result<Vec<Walks<'a>>, Memory>
    ensures count { IfOk result (λ walks. length walks.items ≡ actors) }
    ensures each { IfOk result (λ walks. (actor : ℕ) (d : Walking) → actor < actors →
        plan_of (slice_index_or walks.items actor d) ≡ walking script.now actors actor) }
{
    let mut walks = Vec::with_capacity(alloc, actors as usize)?;
    for actor in 0..actors {
        walks.push(Walks::new(script, actor, actors))?;
    }
    Ok(walks)
}
