// Programs.
use bt_core::items::Items;

/// The code of a body as bytes, eight for each slot, and how many instructions a run of it may take.
#[derive(Drop)]
pub struct Program {
    pub bytes: Items<u8>,
    pub fuel: u64,
}
