// A law of closed code.
ghost use Rattle.std.specs.Prelude.{◌≡◌, ℕ, List, length, Option, Some};
ghost use Rattle.bpf_insn.specs.declared.insn.Insn.{Insn as InsnValue};
ghost use Rattle.bpf_check.specs.declared.known.Seen.{Seen as SeenValue};
ghost use Rattle.bpf_check.specs.Sheet.{Sheet as SheetValue};
ghost use Rattle.bpf_check.specs.States.{Covers};
ghost use Rattle.bpf_check.specs.Closed.{IsClosed, Meets};
ghost use Rattle.bpf_check.specs.Ways.{leads};

/// In a closed assignment what the state of a place covers meets the place's condition, and what comes of it is covered.
pub fn covered_states_meet_conditions()
    ensures { (t : SheetValue) (code : List InsnValue) (states : ℕ → Option SeenValue) (p : ℕ) (a s : SeenValue) →
        IsClosed t code states → states p ≡ Some a → length s.regs ≡ 10 → Covers a s → Meets states (leads t code p s) }
{}
