// Worked bodies, run by their typed instructions and by their programs.
use crate::runs::run_program;
use body_fixtures::lowered::run_text;
use body_fixtures::moments::MAIN;
use body_fixtures::worked::{COUNTS, Row, WORKED, replies_of};
use bt_core::items::Items;
use std::alloc::Global;
use std::test::Fail;

/// How many instructions it takes where the number lies in a word of the frame: 2 before the loop; 10 a turn, of which 2 test the
/// number, 4 take the turn, 3 add 1 to the number and 1 goes back; 2 for the last test; and 9 behind the loop.
const IN_THE_FRAME: u64 = 10_013;

/// Whether the program of a body makes the steps of the body's typed instructions, so many, and these end so.
fn agree(alloc: Global, row: &Row) -> Result<bool, Fail> {
    let (text, number, moment, numbers, count, ending) = *row;
    let ran = run_text(alloc, text, number, moment, replies_of(alloc, numbers)?)?;
    let (made, _count) = run_program(alloc, text, number, moment, replies_of(alloc, numbers)?)?;
    Ok(ran.0 == ending && made.as_slice() == ran.1.as_slice() && made.len() == count)
}

#[test]
fn programs_make_the_steps_of_bodies(rt: HostRuntime) -> Result<(), Fail> {
    let alloc = rt.alloc();
    for (number, row) in WORKED.iter().enumerate() {
        assert!(rt; agree(alloc, row)?, "row {number}");
    }
    Ok(())
}

#[test]
fn a_number_in_a_register_takes_fewer_instructions(rt: HostRuntime) -> Result<(), Fail> {
    let alloc = rt.alloc();
    let (steps, count) = run_program(alloc, COUNTS, 0, MAIN, Items::new(alloc))?;
    assert_eq!(rt; steps.len(), 1);
    assert!(rt; count < IN_THE_FRAME, "{count}");
    Ok(())
}
