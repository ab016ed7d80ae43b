// What is run, and what a run makes.
use bpf_encode::program::Program;
use bt_ast::attached::Attached;
use bt_core::items::Items;
use recordings::recording::Recording;
use typed_tree::script::Typed;
use weave::woven::Woven;

/// A typed script, what it is attached to, the recording that it is run over, and a program for each of its bodies.
#[derive(Drop)]
pub struct Job {
    pub recording: Recording,
    pub attached: Attached,
    pub typed: Typed,
    pub programs: Items<Program>,
}

/// What a run makes: its steps as one woven list, the text that they print, or their JSON lines where these were asked
/// for, and how many instructions were executed.
pub struct Work {
    pub steps: Woven,
    pub text: Items<u8>,
    pub instructions: u64,
}

// Written out, so that it is one call wherever such a value is let go.
impl Drop for Work {
    fn drop(self) {
        let Self {
            steps: _,
            text: _,
            instructions: _,
        } = self;
    }
}
