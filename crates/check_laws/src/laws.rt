// The law of accepted code.
ghost use Rattle.std.specs.Prelude.{◌≤◌, ◌<◌, ◌^◌, ℕ, List, length, Ok};
ghost use Rattle.bpf_insn.specs.declared.insn.Insn.{Insn};
ghost use Rattle.bpf_encode.specs.Decoding.{IsCodeOf};
ghost use Rattle.typed_tree.specs.declared.script.Typed.{Typed};
ghost use Rattle.helper_abi.specs.Running.{script_run};
ghost use Rattle.helper_abi.specs.Served.{desk_of};
ghost use Rattle.bpf_check.specs.Sheet.{sheet_of};
ghost use Rattle.bpf_check.specs.Answers.{IsAnswer};
ghost use Rattle.bt_core.specs.Same.{Yields};
ghost use Rattle.check_laws.specs.Safe.{CanReply, EndsWell};

/// Code that [`bpf_check::check::check_code`] accepts ends by its exit within the number of instructions
/// that was answered, and so neither traps nor goes on: for every number of actors, every actor, every
/// context, every payload of at least so many bytes as was asked, and whatever replies come of the kinds
/// that the script's maps have.
pub fn accepted_code_ends()
    ensures { (typed : Typed) (bytes : List ℕ) (code : List Insn) (least most actor actors : ℕ) (context payload : List ℕ) →
        IsAnswer (sheet_of typed least) bytes (Ok most) → IsCodeOf code bytes → least ≤ length payload → length payload < 2 ^ 32 →
        Yields (CanReply typed.maps) EndsWell (script_run (desk_of typed actor actors) code context payload most) }
{}
