// Laws of the definitions: which fault bytes have, and the bytes of code one behind another.
ghost use Rattle.std.specs.Prelude.{◌≡◌, ◌*◌, ◌++◌, ◌∷◌, [], ℕ, List, false, length, IsTrue};
ghost use Rattle.bpf_insn.specs.declared.insn.Insn.{Insn};
ghost use Rattle.bpf_insn.specs.declared.insn.Insn.TheVariants.{Wide, Half};
ghost use Rattle.bpf_insn.specs.Code.{IsWellFormed, is_valid, is_half, is_wide};
ghost use Rattle.bpf_insn.specs.Encoding.{code_bytes};
ghost use Rattle.bpf_encode.specs.declared.decode.DecodeError.{DecodeError};
ghost use Rattle.bpf_encode.specs.Decoding.{IsCode, IsCodeOf};
ghost use Rattle.bpf_encode.specs.Faults.{AreBytes, IsFirstFault};

/// Bytes have one first fault at most, and none where they are code.
pub fn one_fault()
    ensures one { (bytes : List ℕ) (a b : DecodeError) → AreBytes bytes → IsFirstFault bytes a → IsFirstFault bytes b → a ≡ b }
    ensures none_beside { (bytes : List ℕ) (code : List Insn) (e : DecodeError) → AreBytes bytes → IsCodeOf code bytes → IsFirstFault bytes e → ⊥ }
{}

/// Code behind code is code, and its bytes are theirs, one behind the other: eight for each
/// instruction.
pub fn code_behind_code()
    ensures well_formed { (a b : List Insn) → IsWellFormed a → IsWellFormed b → IsWellFormed (a ++ b) }
    ensures code { (a b : List Insn) → IsCode a → IsCode b → IsCode (a ++ b) }
    ensures bytes { (a b : List Insn) → IsWellFormed b → code_bytes (a ++ b) ≡ code_bytes a ++ code_bytes b }
    ensures long { (code : List Insn) → length (code_bytes code) ≡ 8 * length code }
{}

/// A valid instruction that is no half is well-formed code: a wide load with its half, and any other
/// by itself.
pub fn one_instruction()
    ensures alone { (i : Insn) → IsTrue (is_valid i) → is_half i ≡ false → is_wide i ≡ false → IsWellFormed (i ∷ []) }
    ensures wide { (dst number : ℕ) → IsTrue (is_valid (Wide dst number)) → IsWellFormed (Wide dst number ∷ Half ∷ []) }
{}
