// Where the clock of a trace was raised.
ghost use Rattle.std.specs.Prelude.{◌≡◌, ℕ, ◌<◌, ◌+◌, List, [], ◌∷◌, ◌++◌, length, vec_len, vec_capacity, IsTrue};
ghost use Rattle.bt_core.specs.declared.step.Step.{Step};
ghost use Rattle.stamped.specs.Floors.{floors_told, last_stamp, is_all_before};

/// The clock before the step of a number, counted from 0, where it is not the stamp of the step before it.
#[derive(Clone, Copy)]
pub struct Raised {
    pub place: usize,
    pub clock: u64,
}

/// Notes the clock before the next step, of this number counted from 0, if it is not the last stamp. There is room for it.
pub(crate) fn note(raised: &mut Vec<Raised>, place: usize, stood: u64, clock: u64)
    requires room { vec_len raised.old < vec_capacity raised.old }
    ensures floors { (ss : List Step) (s : Step) → length ss ≡ place → last_stamp 0 ss ≡ stood → IsTrue (is_all_before place raised.old.items) →
        floors_told 0 0 (ss ++ s ∷ []) raised.new.items ≡ floors_told 0 0 ss raised.old.items ++ clock ∷ [] }
    ensures before { IsTrue (is_all_before place raised.old.items) → IsTrue (is_all_before (place + 1) raised.new.items) }
{
    if clock != stood {
        raised.push_reserved(Raised { place, clock });
    }
}
