// The calls of `printf` of a script: in their order, and found by their places and texts.
ghost use Rattle.std.specs.Prelude.{◌≡◌, ◌++◌, ◌∷◌, [], true, false, OnOk, IfOk, MatchOption, length, map};
ghost use Rattle.expr_types.specs.declared.known.Printed.{Printed as Call};
ghost use Rattle.expr_types.specs.Known.{has_call, call_at};

use bt_core::items::Items;
use bt_core::memory::Memory;
use bt_core::place::Place;
use fmt_text::piece::Piece;
use indexmap::IndexMap;
use std::alloc::Global;
use std::marker::Model;

/// What a call of `printf` is found by: the line and the column of its format, from 1, and the format's text.
#[derive(PartialEq, Eq, Hash, Drop)]
struct CallKey {
    line: u32,
    column: u32,
    text: Vec<u8>,
}

/// The key of a call.
fn key(alloc: Global, format: &[u8], place: Place) -> Result<CallKey, Memory>
    ensures place { IfOk result (λ k. (k.line ≡ place.line) × (k.column ≡ place.column)) }
    ensures text { IfOk result (λ k. k.text.items ≡ format.now) }
{
    Ok(CallKey {
        line: place.line,
        column: place.column,
        text: Vec::from_slice(alloc, format)?,
    })
}

/// The calls of `printf` of a script, each with its format's pieces, in the order of the walk. A look-up takes about the same
/// time however many there are.
///
/// Contracts see the list of them and nothing else.
#[derive(Drop)]
pub struct Calls {
    pieces: IndexMap<CallKey, Items<Piece>>,
}

impl Model for Calls {
    ghost use Rattle.std.specs.Prelude.{List};
    ghost use Rattle.expr_types.specs.declared.known.Printed.{Printed};
    ghost use Rattle.expr_types.specs.Indexed.{calls_by};

    ghost Value = { List Printed };

    ghost view = { λ s. calls_by (λ k. record { line = k.line; column = k.column }) (λ k. k.text.items) s.pieces.entries };
}

impl Calls {
    /// No calls.
    pub fn new(alloc: Global) -> Calls
        ensures { result ≡ [] }
    {
        Calls {
            pieces: IndexMap::new(alloc),
        }
    }

    /// How many calls there are.
    pub fn len(&self) -> usize
        ensures { result ≡ length self.now }
    {
        self.pieces.len()
    }

    /// The number of the call whose format is this and stands at this place.
    pub fn find(&self, alloc: Global, format: &[u8], place: Place) -> Result<Option<usize>, Memory>
        ensures { IfOk result (λ found. MatchOption found (has_call format.now place self.now ≡ false)
            (λ i. (has_call format.now place self.now ≡ true) × (i ≡ call_at format.now place self.now))) }
    {
        let key = key(alloc, format, place)?;
        Ok(self.pieces.get_index_of(&key))
    }

    /// The pieces of all formats, in the order of the calls.
    #[tactic(auto, using(crate::proofs::Calling::pieces_held))]
    pub fn into_pieces(self, alloc: Global) -> Result<Items<Items<Piece>>, Memory>
        ensures { IfOk result (λ all. all ≡ map (λ (c : Call). c.pieces) self) }
    {
        let Calls { pieces } = self;
        let all: Vec<Items<Piece>> = pieces.into_values().collect(alloc)?;
        Ok(Items::of(all))
    }

    /// Adds a call at the end, where there is none of this format at this place.
    pub fn push(
        &mut self,
        alloc: Global,
        format: &[u8],
        place: Place,
        pieces: Items<Piece>,
    ) -> Result<(), Memory>
        requires { has_call format.now place self.old ≡ false }
        ensures { OnOk result (self.new ≡ self.old ++ record { place = place; text = format.now; pieces = pieces } ∷ []) }
    {
        let key = key(alloc, format, place)?;
        self.pieces.insert(key, pieces)?;
        Ok(())
    }
}
