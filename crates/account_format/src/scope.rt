// What an account may name.
use bt_core::map::MapDecl;

/// What the entries of an account may name: actors and ticks, by numbers below these, and maps, by their places among these.
#[derive(Clone, Copy)]
pub struct Scope<'a> {
    pub actors: u32,
    pub ticks: u32,
    pub maps: &'a [MapDecl],
}
