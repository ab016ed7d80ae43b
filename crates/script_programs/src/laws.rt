// Code of lowered bodies.
ghost use Rattle.std.specs.Prelude.{List};
ghost use Rattle.bpf_insn.specs.declared.insn.Insn.{Insn};
ghost use Rattle.typed_tree.specs.declared.script.Typed.{Typed};
ghost use Rattle.ir_code.specs.declared.probe.IrProbe.{IrProbe};
ghost use Rattle.bt_lower.specs.Bodies.{LowersScript};
ghost use Rattle.code_runs.specs.Kept.{KeepBodies};
ghost use Rattle.script_programs.specs.Probes.{KeepProbes};

/// Code that keeps a body in typed instructions keeps the body that it was lowered from.
pub fn lowered_code_keeps_bodies()
    ensures { (script : Typed) (probes : List IrProbe) (codes : List (List Insn)) → LowersScript script probes → KeepProbes probes codes →
        KeepBodies script codes }
{}
