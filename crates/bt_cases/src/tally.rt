// How many cases agree.
use std::fmt;

/// How many cases came out as wanted, and how many did not.
#[derive(Clone, Copy, Default, PartialEq, Eq)]
pub(crate) struct Tally {
    agree: u64,
    differ: u64,
}

impl Tally {
    /// Counts a case.
    pub fn count(&mut self, agrees: bool) {
        if agrees {
            self.agree = self.agree.saturating_add(1);
        } else {
            self.differ = self.differ.saturating_add(1);
        }
    }
}

impl fmt::Display for Tally {
    fn fmt<W: fmt::Write>(&self, f: &mut fmt::Formatter<W>) -> fmt::Result {
        let agree = self.agree;
        let differ = self.differ;
        write!(f, "{agree} cases agree, {differ} differ")
    }
}

/// How cases end, and how the check of their code does.
#[derive(Clone, Copy, Default, PartialEq, Eq)]
pub(crate) struct Tallies {
    pub cases: Tally,
    pub vets: Tally,
}
