// What a lock can guard.
ghost use Rattle.std.specs.Prelude.{◌≡◌, List, [], ◌∷◌, ◌++◌, OnOk, OnErr, IsOk};
ghost use Rattle.bt_core.specs.declared.step.Op.{Op};
ghost use Rattle.bt_core.specs.declared.step.Reply.{Reply};

use bt_core::memory::Memory;
use bt_core::step::{Op, Reply};
use std::alloc::Global;

/// An object that takes one operation at a time, and that contracts tell by the operations that it
/// took so far.
pub trait SeqObject: Drop {
    /// What an object of the type is made for and never changes, as the declarations of its maps.
    type Kind;

    /// The object's kind.
    ghost kind: { Self → Self.Kind };

    /// The operations that may be asked of an object of this kind.
    ghost is_own: { Self.Kind → Op → Type 0 };

    /// What an object of this kind replies to an operation after these earlier ones.
    ghost reply_after: { Self.Kind → List Op → Op → Reply };

    /// The object is one that took these operations, in this order, and no others.
    ghost stands_for: { Self → List Op → Type 0 };

    /// The operations that take no memory after these earlier ones.
    ghost is_free: { Self.Kind → List Op → Op → Type 0 };

    /// Takes one operation, which is one of the object's own, and writes its reply over what is there.
    ///
    /// After [`Memory`] it is as if the operation had not been asked, and nothing is said of what is
    /// there. A free operation never answers [`Memory`].
    fn apply(&mut self, alloc: Global, op: &Op, reply: &mut Reply) -> Result<(), Memory>
        requires { is_own (kind self.old) op.now }
        ensures kind { kind self.new ≡ kind self.old }
        ensures replies { OnOk result ((before : List Op) → stands_for self.old before → reply.new ≡ reply_after (kind self.old) before op.now) }
        ensures taken { OnOk result ((before : List Op) → stands_for self.old before → stands_for self.new (before ++ op.now ∷ [])) }
        ensures memory { OnErr result ((before : List Op) → stands_for self.old before → stands_for self.new before) }
        ensures free { (before : List Op) → stands_for self.old before → is_free (kind self.old) before op.now → IsOk result };
}
