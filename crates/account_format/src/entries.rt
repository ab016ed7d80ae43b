// The entries of an account, for who asks: their steps one by one.
ghost use Rattle.std.specs.Prelude.{◌≡◌, drop, slice_get, IfOk, OnOk, OnErr};

use crate::entry::entry_at;
use crate::scope::Scope;
use bt_core::memory::Memory;
use bt_core::step::Step;
use std::alloc::Global;
use std::marker::Model;

/// The entries of an account that are left, as the steps that they tell: with no replies, and no items. Contracts see the list of these
/// steps.
///
/// Each is read from the bytes of the account when it is asked for, so that no list of steps is kept.
#[derive(Drop)]
pub struct Entries<'a> {
    pub(crate) scope: Scope<'a>,
    pub(crate) bytes: &'a [u8],
    pub(crate) left: u64,
}

impl<'a> Model for Entries<'a> {
    ghost use Rattle.std.specs.Prelude.{List};
    ghost use Rattle.bt_core.specs.declared.step.Step.{Step};
    ghost use Rattle.account_format.specs.Scopes.{setting_in};
    ghost use Rattle.account_format.specs.Reading.{steps_at};

    ghost Value = { List Step };

    ghost view = { λ e. steps_at (setting_in e.scope) e.left e.bytes.now };
}

impl<'a> Entries<'a> {
    /// The step of the next entry, or `None` behind the last. After [`Memory`] it is still the next one.
    pub fn next(&mut self, alloc: Global) -> Result<Option<Step>, Memory>
        ensures step { IfOk result (λ step. step ≡ slice_get self.old 0) }
        ensures left { OnOk result (self.new ≡ drop 1 self.old) }
        ensures memory { OnErr result (self.new ≡ self.old) }
    {
        if self.left == 0 {
            return Ok(None);
        }
        let Some((step, rest)) = entry_at(alloc, &self.scope, self.bytes)? else {
            return Ok(None);
        };
        self.left -= 1;
        self.bytes = rest;
        Ok(Some(step))
    }
}
