// How long callers of a lock look before they sleep, as far as earlier waits tell.

use std::sync::atomic::{AtomicU32, Ordering};

/// So many looks take some microseconds. Where even they are seldom enough, more would only keep the processor from the caller that has the turn.
const FEW: u32 = 64;

/// So many looks take a good part of a millisecond, in which a turn comes wherever each caller has a processor.
const MANY: u32 = 5_000;

/// Of so many waits of few looks that ended in a sleep, one is followed by a wait of many, since nothing else tells that they would do again.
const TRIED: u32 = 64;

/// How often a caller looks before it sleeps: more often while turns come to those that look, and less where callers had to sleep.
///
/// No clause speaks of it: it is a guess that callers share.
#[derive(Drop)]
pub(crate) struct Patience {
    looks: AtomicU32,
    sleeps: AtomicU32,
}

impl Patience {
    /// That of a lock that nobody has waited for yet.
    pub fn new() -> Patience {
        Patience {
            looks: AtomicU32::new(MANY),
            sleeps: AtomicU32::new(0),
        }
    }

    /// How often a caller looks that begins to wait now.
    pub fn looks(&self) -> u32 {
        self.looks.load(Ordering::Relaxed)
    }

    /// A turn came to a caller that looked for it for more than a moment.
    pub fn looking_helped(&self) {
        let looks = self.looks();
        if looks < MANY {
            let more = looks + looks / 8 + 1;
            self.looks.store(more.min(MANY), Ordering::Relaxed);
        }
    }

    /// A caller has looked in vain, and is to sleep.
    pub fn looking_failed(&self) {
        let looks = self.looks();
        if looks > FEW {
            let fewer = looks / 2;
            self.looks.store(fewer.max(FEW), Ordering::Relaxed);
        } else if self.sleeps.fetch_add(1, Ordering::Relaxed) % TRIED == TRIED - 1 {
            self.looks.store(MANY, Ordering::Relaxed);
        }
    }
}
