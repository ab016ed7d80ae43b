// Where callers wait until their turn comes.

use crate::patience::Patience;
use bt_core::memory::Memory;
use std::alloc::Global;
use std::hint::spin_loop;
use std::sync::Wait;
use std::sync::atomic::{AtomicU32, Ordering};
use std::thread::{Parker, yield_now};

/// A turn that comes within so many looks says nothing of how long it is worth to look.
const MOMENT: u32 = 8;

/// What one caller has done since it began to wait.
#[derive(Drop)]
pub(crate) struct Waited {
    looks: u32,
    most: u32,
    counted: bool,
}

/// Places in which callers of a lock sleep that have waited for long. There are as many as callers, and a caller sleeps in the place of its
/// ticket: no more tickets are out than there are callers, so it is alone there.
///
/// Callers that are about to sleep, or do, are counted, so that nobody is woken where there are none. A caller is counted before it
/// looks for the last time and sleeps, and who passes the turn on does that before it reads the count: so it finds the caller counted, or
/// the caller finds that its turn has come.
///
/// No clause says who sleeps or is woken.
pub(crate) struct Sleepers {
    places: Vec<Parker>,
    patience: Patience,
    sleeping: AtomicU32,
}

// Written out, so that it is one call wherever such a value is let go.
impl Drop for Sleepers {
    fn drop(self) {
        let Self {
            places: _,
            patience: _,
            sleeping: _,
        } = self;
    }
}

impl Sleepers {
    /// Places for so many callers.
    pub fn new(alloc: Global, callers: u32) -> Result<Sleepers, Memory> {
        let mut places = Vec::with_capacity(alloc, callers as usize)?;
        for _ in 0..callers {
            places.push(Parker::new())?;
        }
        let patience = Patience::new();
        Ok(Sleepers {
            places,
            patience,
            sleeping: AtomicU32::new(0),
        })
    }

    // The place of a ticket.
    fn place(&self, ticket: u64) -> Option<&Parker> {
        let count = self.places.len() as u64;
        if count == 0 {
            return None;
        }
        self.places.get((ticket % count) as usize)
    }

    // Sleeps until the place of the ticket is woken. Where that was done since the last sleep there it returns at once.
    fn sleep<R: Wait>(&self, rt: &R, ticket: u64) {
        match self.place(ticket) {
            Some(place) => place.park(rt),
            None => yield_now(),
        }
    }

    /// A wait that begins.
    pub fn begin(&self) -> Waited {
        Waited {
            looks: 0,
            most: self.patience.looks(),
            counted: false,
        }
    }

    /// Waits between two looks: for a moment, and from the time on that it has looked for long enough until the place of the ticket is woken.
    /// Before it sleeps for the first time it is counted, and looks once more.
    pub fn wait<R: Wait>(&self, rt: &R, ticket: u64, waited: &mut Waited) {
        if waited.looks < waited.most {
            waited.looks += 1;
            spin_loop();
            return;
        }
        if !waited.counted {
            waited.counted = true;
            self.patience.looking_failed();
            self.sleeping.fetch_add(1, Ordering::SeqCst);
            return;
        }
        self.sleep(rt, ticket);
    }

    /// A wait has ended, since the turn has come.
    pub fn end(&self, waited: &Waited) {
        if waited.counted {
            self.sleeping.fetch_sub(1, Ordering::SeqCst);
        } else if waited.looks > MOMENT {
            self.patience.looking_helped();
        }
    }

    /// Wakes the caller that sleeps in the place of the ticket, or else the next one that would sleep there. Where no caller is counted,
    /// nobody has to be woken.
    pub fn wake(&self, ticket: u64) {
        if self.sleeping.load(Ordering::SeqCst) == 0 {
            return;
        }
        if let Some(place) = self.place(ticket) {
            place.unpark();
        }
    }
}
