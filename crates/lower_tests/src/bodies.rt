// Worked bodies, run as they are lowered and walked.
use body_fixtures::lowered::runs_as_walked;
use body_fixtures::worked::WORKED;
use std::test::Fail;

#[test]
fn lowered_bodies_run_as_they_are_walked(rt: HostRuntime) -> Result<(), Fail> {
    let alloc = rt.alloc();
    for (number, row) in WORKED.iter().enumerate() {
        assert!(rt; runs_as_walked(alloc, row)?, "row {number}");
    }
    Ok(())
}
