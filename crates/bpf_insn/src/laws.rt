// Laws of the definitions: which opcodes forms have, and the numbers in them.
ghost use Rattle.std.specs.Prelude.{◌≡◌, ℕ};
ghost use Rattle.bpf_insn.specs.declared.class.TheConstants.{LDX, ST, STX, ALU, JMP, JMP32, ALU64, MEM, MEMSX, NEG, END, JA, CALL, EXIT, WIDE};
ghost use Rattle.bpf_insn.specs.declared.form.Form.{Form};
ghost use Rattle.bpf_insn.specs.Opcodes.{IsFormAt};

/// An opcode is that of one form of the set at most.
pub fn one_form()
    ensures { (opcode : ℕ) (a b : Form) → IsFormAt opcode a → IsFormAt opcode b → a ≡ b }
{}

/// The classes, modes and numbers of operations in opcodes are those of RFC 9669, sections 3.1, 4 and 5.
pub fn opcodes_are()
    ensures ldx { LDX ≡ 1 }
    ensures st { ST ≡ 2 }
    ensures stx { STX ≡ 3 }
    ensures alu { ALU ≡ 4 }
    ensures jmp { JMP ≡ 5 }
    ensures jmp32 { JMP32 ≡ 6 }
    ensures alu64 { ALU64 ≡ 7 }
    ensures mem { MEM ≡ 3 }
    ensures memsx { MEMSX ≡ 4 }
    ensures neg { NEG ≡ 8 }
    ensures end { END ≡ 13 }
    ensures ja { JA ≡ 0 }
    ensures call { CALL ≡ 8 }
    ensures exit { EXIT ≡ 9 }
    ensures wide { WIDE ≡ 24 }
{}
