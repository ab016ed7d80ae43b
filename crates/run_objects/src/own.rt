// An object of a run with its clock.
ghost use Rattle.std.specs.Prelude.{◌≡◌, ◌<◌, ◌≤◌, ◌^◌, ◌++◌, ◌∷◌, [], List, length, max, suc, slice_index_or, IfOk, OnOk, OnErr};
ghost use Rattle.bt_core.specs.declared.step.Op.{Op};
ghost use Rattle.run_objects.specs.declared.own.OwnObject.{OwnObject};
ghost use Rattle.run_objects.specs.Took.{TookAt};

use bt_core::memory::{Memory, fitting};
use bt_core::step::{Op, Reply};
use std::alloc::Global;
use turn_lock::object::SeqObject;

/// An object, and the stamp of the last step at it, or 0.
#[derive(Drop)]
pub struct OwnObject<O> {
    pub object: O,
    pub clock: u64,
}

impl<O: SeqObject> OwnObject<O> {
    /// Takes one operation, writes its reply over what is there, and tells its stamp, which is one more than the greater of
    /// both clocks: the object's and the actor's. After [`Memory`] it is as if the operation had not been asked, and nothing is
    /// said of the reply.
    #[inline(always)]
    pub fn take(
        &mut self,
        alloc: Global,
        op: &Op,
        clock: u64,
        reply: &mut Reply,
    ) -> Result<u64, Memory>
        requires { O.is_own (O.kind self.old.object) op.now }
        ensures kind { O.kind self.new.object ≡ O.kind self.old.object }
        ensures replies { OnOk result ((before : List Op) → O.stands_for self.old.object before →
            reply.new ≡ O.reply_after (O.kind self.old.object) before op.now) }
        ensures taken { OnOk result ((before : List Op) → O.stands_for self.old.object before → O.stands_for self.new.object (before ++ op.now ∷ [])) }
        ensures stamp { IfOk result (λ stamp. stamp ≡ suc (max clock self.old.clock)) }
        ensures clock { IfOk result (λ stamp. self.new.clock ≡ stamp) }
        ensures memory { OnErr result ((before : List Op) → O.stands_for self.old.object before → O.stands_for self.new.object before) }
        ensures same { OnErr result (self.new.clock ≡ self.old.clock) }
        // A free operation is refused only where its stamp would not fit.
        ensures beyond { OnErr result ((before : List Op) → O.stands_for self.old.object before → O.is_free (O.kind self.old.object) before op.now →
            2 ^ 64 ≤ suc (max clock self.old.clock)) }
    {
        let stamp = fitting(self.clock.max(clock).checked_add(1))?;
        self.object.apply(alloc, op, reply)?;
        self.clock = stamp;
        Ok(stamp)
    }
}

/// Takes one operation at one of these objects, as [`OwnObject::take`] does.
#[inline(always)]
pub fn take_in<O: SeqObject>(
    alloc: Global,
    list: &mut Vec<OwnObject<O>>,
    place: usize,
    op: &Op,
    clock: u64,
    reply: &mut Reply,
) -> Result<u64, Memory>
    requires there { place < length list.old.items }
    requires own { (d : OwnObject O) → O.is_own (O.kind (slice_index_or list.old.items place d).object) op.now }
    ensures { TookAt O.kind O.stands_for O.reply_after op.now clock place list.old.items list.new.items reply.new result }
{
    list[place].take(alloc, op, clock, reply)
}
