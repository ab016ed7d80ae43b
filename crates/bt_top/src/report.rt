// What a call answers.
ghost use Rattle.std.specs.Prelude.{◌≡◌, [], None, Some};
ghost use Rattle.top_refusals.specs.Refusals.{status_of};

use bpf_encode::program::Program;
use bt_core::items::Items;
use run_output::job::Work;
use std::alloc::Global;
use top_refusals::refusal::{Refusal, status_of};

/// What a call answers: the exit status, why it was refused where it was, the work that was done, which is there at status 0
/// and 5 of `run`, `big` and `account`, and the programs that were run, listed or checked, one for each body in the order of the bodies, at
/// status 0 and 5 of `run`, `code`, `big`, `vet` and `account`, and at status 8, which is of `vet` alone.
pub struct Report {
    pub status: u8,
    pub refusal: Option<Refusal>,
    pub work: Option<Work>,
    pub programs: Items<Program>,
}

// Written out, so that it is one call wherever such a value is let go.
impl Drop for Report {
    fn drop(self) {
        let Self {
            status: _,
            refusal: _,
            work: _,
            programs: _,
        } = self;
    }
}

/// A call that was refused before anything was written.
pub(crate) fn refused(alloc: Global, refusal: Refusal) -> Report
    ensures { result ≡ record { status = status_of (Some refusal); refusal = Some refusal; work = None; programs = [] } }
{
    Report {
        status: status_of(Some(refusal)),
        refusal: Some(refusal),
        work: None,
        programs: Items::new(alloc),
    }
}
