// How the object on a desk takes an operation.
ghost use Rattle.std.specs.Prelude.{◌≡◌, ◌⊎◌, suc, ◌-◌, ◌^◌, max, List, [], ◌∷◌, ◌++◌, IfOk, OnOk, OnErr};
ghost use Rattle.bt_core.specs.declared.step.Op.{Op};

use crate::object::SeqObject;
use crate::view::Desk;
use bt_core::memory::{Memory, fitting};
use bt_core::step::{Op, Reply};
use std::alloc::Global;

impl<O: SeqObject> Desk<O> {
    /// Applies the operation to the object, writes its reply, and gives it a stamp above the floor and the last one.
    ///
    /// After [`Memory`] it is as if that had not been asked, but for the reply, of which nothing is said.
    pub fn serve(
        &mut self,
        alloc: Global,
        floor: u64,
        op: &Op,
        reply: &mut Reply,
    ) -> Result<u64, Memory>
        requires own { O.is_own (O.kind self.old.object) op.now }
        ensures kind { O.kind self.new.object ≡ O.kind self.old.object }
        ensures stamp { IfOk result (λ stamp. (stamp ≡ suc (max floor self.old.stamp)) × (self.new.stamp ≡ stamp)) }
        ensures done { OnOk result ((before : List Op) → O.stands_for self.old.object before →
            (reply.new ≡ O.reply_after (O.kind self.old.object) before op.now) × O.stands_for self.new.object (before ++ op.now ∷ [])) }
        ensures memory { OnErr result ((self.new.stamp ≡ self.old.stamp) ×
            ((before : List Op) → O.stands_for self.old.object before → O.stands_for self.new.object before)) }
        ensures cause { OnErr result ((before : List Op) → O.stands_for self.old.object before →
            (¬ O.is_free (O.kind self.old.object) before op.now) ⊎ ((floor ≡ 2 ^ 64 - 1) ⊎ (self.old.stamp ≡ 2 ^ 64 - 1))) }
    {
        let last = floor.max(self.stamp);
        let next = fitting(last.checked_add(1))?;
        self.object.apply(alloc, op, reply)?;
        self.stamp = next;
        Ok(next)
    }
}
