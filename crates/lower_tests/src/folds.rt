// Bodies with their literals folded.
use body_fixtures::lowered::probe_of;
use ir_code::blocks::{Block, Exit};
use ir_code::instr::Instr;
use ir_code::probe::IrProbe;
use ir_fold::fold::fold;
use std::alloc::Global;
use std::test::Fail;

/// The text of a script with one body; and how many operators on numbers and how many branches its instructions have as they
/// were lowered, and when they are folded.
const FOLDS: [(&[u8], (usize, usize), (usize, usize)); 5] = [
    // The product of two literals, and its sum with a third.
    (b"BEGIN { $a = 2 * 3 + 1; @x = $a; }", (2, 0), (0, 0)),
    // A sum with a variable stays; the negation and the quotient of literals do not.
    (b"BEGIN { $a = 1; @x = -(8 / 4) + $a; }", (3, 0), (1, 0)),
    // A branch on a comparison of literals.
    (b"BEGIN { if (1 > 2) { @x = 1; } }", (1, 1), (0, 0)),
    // A branch on a comparison of what is known in a run alone.
    (b"BEGIN { if (nsecs > 2) { @x = 1; } }", (1, 1), (1, 1)),
    // A condition of two tests: the second one branches itself, and the block that only branched on their outcome stays.
    (
        b"BEGIN { if (nsecs > 2 && pid > 2) { @x = 1; } }",
        (2, 2),
        (2, 3),
    ),
];

/// How many operators on numbers a block has.
fn operators(block: &Block) -> usize {
    let mut found = 0usize;
    for instr in block.instrs.as_slice() {
        if matches!(instr, Instr::Unary(_) | Instr::Binary(_)) {
            found = found.saturating_add(1);
        }
    }
    found
}

/// How many operators on numbers and how many branches a body has.
fn figures(probe: &IrProbe) -> (usize, usize) {
    let mut found = 0usize;
    let mut branches = 0usize;
    for block in probe.blocks.list.as_slice() {
        found = found.saturating_add(operators(block));
        if matches!(block.exit, Exit::Branch { .. }) {
            branches = branches.saturating_add(1);
        }
    }
    (found, branches)
}

/// The figures of a script's one body, as it is lowered and when it is folded.
fn both(alloc: Global, text: &[u8]) -> Result<((usize, usize), (usize, usize)), Fail> {
    let probe = probe_of(alloc, text)?;
    let lowered = figures(&probe);
    let folded = fold(alloc, probe)?;
    Ok((lowered, figures(&folded)))
}

#[test]
fn operators_and_branches_on_literals_are_folded(rt: HostRuntime) -> Result<(), Fail> {
    let alloc = rt.alloc();
    for (number, row) in FOLDS.iter().enumerate() {
        assert!(rt; both(alloc, row.0)? == (row.1, row.2), "row {number}");
    }
    Ok(())
}
