// A tracepoint with its format text.
use crate::layout::Layout;
use bt_core::items::Items;

/// A tracepoint: the system that it belongs to, its format text, and the layout that the text describes.
pub struct Format {
    /// The system that the tracepoint belongs to, as `sched`.
    pub system: Items<u8>,
    /// The text of its `format` file.
    pub text: Items<u8>,
    /// What the text says.
    pub layout: Layout,
}

// Written out, so that it is one call wherever such a value is let go.
impl Drop for Format {
    fn drop(self) {
        let Self {
            system: _,
            text: _,
            layout: _,
        } = self;
    }
}

impl Format {
    ghost use Rattle.std.specs.Prelude.{IsTrue, ◌↔◌};
    ghost use Rattle.event_layout.specs.ByName.{IsNamed};

    /// Whether the tracepoint belongs to this system and has this name.
    pub fn is_named(&self, system: &[u8], name: &[u8]) -> bool
        ensures { IsTrue result ↔ IsNamed self.now system.now name.now }
    {
        self.system.as_slice() == system && self.layout.name.as_slice() == name
    }
}
