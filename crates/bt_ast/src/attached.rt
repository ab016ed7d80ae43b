// What the probes of a script are attached to in a recording.
use bt_core::items::Items;

/// What a body is run at. An event is named by the place of its format in the recording.
#[derive(Clone, Copy, PartialEq, Eq)]
pub enum BodyPoint {
    Begin,
    End,
    Interval,
    Event(u32),
}

/// A body: a probe, by its place in the script, together with one thing that it is attached to.
#[derive(Clone, Copy)]
pub struct BodyId {
    pub probe: u32,
    pub point: BodyPoint,
}

/// A tick of an interval: its time in nanoseconds and the body that is run, by its place.
#[derive(Clone, Copy)]
pub struct Tick {
    pub time: u64,
    pub body: u32,
}

/// The bodies of a script over a recording, in the order in which they are numbered; for each format the bodies
/// that its events run; the ticks in their order; and the bodies that run before and after all others.
pub struct Attached {
    pub bodies: Items<BodyId>,
    pub by_format: Items<Items<u32>>,
    pub ticks: Items<Tick>,
    pub begin: Items<u32>,
    pub end: Items<u32>,
}

// Written out, so that it is one call wherever such a value is let go.
impl Drop for Attached {
    fn drop(self) {
        let Self {
            bodies: _,
            by_format: _,
            ticks: _,
            begin: _,
            end: _,
        } = self;
    }
}
