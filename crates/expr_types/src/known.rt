// What is known at a place of the walk: what earlier mentions decided.
ghost use Rattle.std.specs.Prelude.{◌≡◌, ◌==◌, ◌++◌, ◌∷◌, ◌≤◌, ◌^◌, [], true, false, Some, None, OnOk, OnErr, IfOk, MatchOption, slice_get};
ghost use Rattle.std.specs.List.{list_any};
ghost use Rattle.std.specs.Option.{option_copied};
ghost use Rattle.fmt_text.specs.Deciding.{format_pieces};
ghost use Rattle.typed_tree.specs.Scope.{is_fine_decl};
ghost use Rattle.expr_types.specs.Known.{has_name, place_of, decl_in, var_in, event_field, add_name, add_number, with_name, with_mention};
ghost use Rattle.expr_types.specs.Known.{with_decl, with_var, add_call, call_at, with_call, begun};
ghost use Rattle.expr_types.specs.Typing.{IsNamed};

use crate::printed::Calls;
use crate::variables::Variables;
use bt_core::beside::beside;
use bt_core::items::Items;
use bt_core::map::{MapDecl, MapId, MapKind, Shape};
use bt_core::memory::{Memory, TryCopy};
use bt_core::place::Place;
use event_layout::field::Field;
use event_layout::layout::Layout;
use fmt_text::piece::Piece;
use std::alloc::Global;

/// A variable of a body and what it holds.
#[derive(Drop)]
pub struct Var {
    pub name: Items<u8>,
    pub shape: Shape,
}

/// A call of `printf`: where its format stands, the format's text, and its pieces.
pub struct Printed {
    pub place: Place,
    pub text: Items<u8>,
    pub pieces: Items<Piece>,
}

// Written out, so that it is one call wherever such a value is let go.
impl Drop for Printed {
    fn drop(self) {
        let Self {
            place: _,
            text: _,
            pieces: _,
        } = self;
    }
}

/// What is known at a place of the walk.
///
/// Of the body: the layout of its event, if it has one; the variables that it has assigned, in the order of their first
/// assignments; the numbers of the maps and of the calls of `printf` that it has named. Of the script: the names of maps, in
/// the order of their tokens and in that of their mentions; what was decided of maps; and the calls of `printf`.
#[derive(Drop)]
pub struct Known {
    pub event: Option<Layout>,
    pub vars: Variables,
    pub named: Items<u32>,
    pub calls: Items<u32>,
    pub names: Items<Items<u8>>,
    pub mentioned: Items<Items<u8>>,
    pub decided: Items<MapDecl>,
    pub printed: Calls,
}

/// The place of a name among names.
fn place_of(names: &[Items<u8>], name: &[u8]) -> Option<usize>
    ensures { MatchOption result (has_name name.now names.now ≡ false)
        (λ i. (has_name name.now names.now ≡ true) × (i ≡ place_of name.now names.now) × (slice_get names.now i ≡ Some name.now)) }
{
    for (i, other) in names.iter().enumerate() {
        if other.as_slice() == name {
            return Some(i);
        }
    }
    None
}

/// A place as a number of a map, a variable or a format.
pub fn number_of(place: usize) -> Result<u32, Memory>
    ensures number { IfOk result (λ n. n ≡ place) }
    ensures beyond { OnErr result (2 ^ 32 ≤ place) }
{
    Ok(u32::try_from(place)?)
}

/// Whether a number is one of these.
fn has_number(numbers: &[u32], number: u32) -> bool
    ensures { result ≡ list_any (λ n. n == number) numbers.now }
{
    numbers.iter().any(|n| *n == number)
}

/// The first declaration of this name.
fn decl_in<'a>(decls: &'a [MapDecl], name: &[u8]) -> Option<&'a MapDecl>
    ensures { option_copied result ≡ decl_in name.now decls.now }
{
    for decl in decls {
        if decl.name.as_slice() == name {
            return Some(decl);
        }
    }
    None
}

/// Adds a copy of a name to names.
fn push_name(names: &mut Items<Items<u8>>, alloc: Global, name: &Items<u8>) -> Result<(), Memory>
    ensures { OnOk result (names.new ≡ names.old ++ name.now ∷ []) }
{
    let copied = name.try_copy(alloc)?;
    names.push(copied)
}

impl Known {
    /// What was decided of the map of this name.
    pub fn decl(&self, name: &[u8]) -> Option<&MapDecl>
        ensures { option_copied result ≡ decl_in name.now self.now.decided }
    {
        decl_in(self.decided.as_slice(), name)
    }

    /// The variable of this name: its place and what it holds.
    pub fn var(&self, name: &[u8]) -> Option<(usize, Shape)>
        ensures { MatchOption result (var_in name.now self.now.vars ≡ None)
            (λ found. (var_in name.now self.now.vars ≡ Some found.1) × (slice_get self.now.vars found.0 ≡ Some (record { name = name.now; shape = found.1 }))) }
    {
        self.vars.find(name)
    }

    /// The field of the event that has this name.
    pub fn field(&self, name: &[u8]) -> Option<&Field>
        ensures { option_copied result ≡ event_field self.now.event name.now }
    {
        match &self.event {
            None => None,
            Some(layout) => layout.field(name),
        }
    }

    /// Whether a map was mentioned.
    pub fn is_mentioned(&self, name: &[u8]) -> bool
        ensures { result ≡ has_name name.now self.now.mentioned }
    {
        place_of(self.mentioned.as_slice(), name).is_some()
    }

    /// The number of a map's name, which is added where it is new.
    fn add_name(&mut self, alloc: Global, name: &Items<u8>) -> Result<u32, Memory>
        ensures learned { OnOk result (self.new ≡ add_name self.old name.now) }
        ensures placed { IfOk result (λ number. number ≡ place_of name.now self.new.names) }
        ensures numbered { IfOk result (λ number. slice_get self.new.names number ≡ Some name.now) }
    {
        match place_of(self.names.as_slice(), name.as_slice()) {
            Some(place) => number_of(place),
            None => {
                let number = number_of(self.names.len())?;
                push_name(&mut self.names, alloc, name)?;
                Ok(number)
            }
        }
    }

    /// Adds the number of a map to those that the body has named, where it is not one of them.
    fn add_number(&mut self, number: u32) -> Result<(), Memory>
        ensures learned { OnOk result (self.new ≡ add_number self.old number) }
        ensures here { OnOk result (list_any (λ n. n == number) self.new.named ≡ true) }
    {
        if has_number(self.named.as_slice(), number) {
            return Ok(());
        }
        self.named.push(number)
    }

    /// The number of a map, by the name of its token. It is added where it is new, to the script's maps and to those that the
    /// body has named.
    pub fn name(&mut self, alloc: Global, name: &Items<u8>) -> Result<MapId, Memory>
        ensures learned { OnOk result (self.new ≡ with_name self.old name.now) }
        ensures named { IfOk result (λ id. IsNamed self.new id.0 name.now) }
    {
        let number = self.add_name(alloc, name)?;
        self.add_number(number)?;
        Ok(MapId(number))
    }

    /// Adds the mention of a map, where it is the first.
    pub fn mention(&mut self, alloc: Global, name: &Items<u8>) -> Result<(), Memory>
        ensures { OnOk result (self.new ≡ with_mention self.old name.now) }
    {
        if self.is_mentioned(name.as_slice()) {
            return Ok(());
        }
        push_name(&mut self.mentioned, alloc, name)
    }

    /// Decides what a map holds and the types of its key's parts, where that is not decided.
    pub fn decide(
        &mut self,
        alloc: Global,
        name: &Items<u8>,
        kind: MapKind,
        key_shape: Items<Shape>,
    ) -> Result<(), Memory>
        requires { is_fine_decl (record { name = name.now; kind = kind; key_shape = key_shape }) ≡ true }
        ensures { OnOk result (self.new ≡ with_decl self.old (record { name = name.now; kind = kind; key_shape = key_shape })) }
    {
        if self.decl(name.as_slice()).is_some() {
            drop(key_shape);
            return Ok(());
        }
        let (key_shape, name) = beside(key_shape, name.try_copy(alloc))?;
        self.decided.push(MapDecl {
            name,
            kind,
            key_shape,
        })
    }

    /// Adds a variable, where there is none of this name.
    pub fn set(&mut self, alloc: Global, name: &Items<u8>, shape: Shape) -> Result<(), Memory>
        ensures { OnOk result (self.new ≡ with_var self.old (record { name = name.now; shape = shape })) }
    {
        if self.var(name.as_slice()).is_some() {
            return Ok(());
        }
        self.vars.push(alloc, name.as_slice(), shape)
    }

    /// Begins a body, at an event of this layout or at none.
    pub fn begin(&mut self, alloc: Global, event: Option<Layout>)
        ensures { self.new ≡ begun self.old event }
    {
        self.event = event;
        self.vars = Variables::new(alloc);
        self.named = Items::new(alloc);
        self.calls = Items::new(alloc);
    }

    /// The number of a call of `printf` whose format has these pieces, which is added where it is new.
    fn add_call(
        &mut self,
        alloc: Global,
        format: &Items<u8>,
        place: Place,
        pieces: Items<Piece>,
    ) -> Result<u32, Memory>
        requires { format_pieces format.now ≡ Some pieces }
        ensures learned { OnOk result (self.new ≡ add_call self.old format.now place) }
        ensures numbered { IfOk result (λ number. number ≡ call_at format.now place self.new.printed) }
    {
        match self.printed.find(alloc, format.as_slice(), place)? {
            Some(found) => number_of(found),
            None => {
                let number = number_of(self.printed.len())?;
                self.printed.push(alloc, format.as_slice(), place, pieces)?;
                Ok(number)
            }
        }
    }

    /// A call of `printf` whose format has these pieces: its number, which is added to those that the body has named.
    pub fn call(
        &mut self,
        alloc: Global,
        format: &Items<u8>,
        place: Place,
        pieces: Items<Piece>,
    ) -> Result<u32, Memory>
        requires { format_pieces format.now ≡ Some pieces }
        ensures learned { OnOk result (self.new ≡ with_call self.old format.now place) }
        ensures numbered { IfOk result (λ number. number ≡ call_at format.now place self.new.printed) }
    {
        let number = self.add_call(alloc, format, place, pieces)?;
        self.calls.push(number)?;
        Ok(number)
    }
}
