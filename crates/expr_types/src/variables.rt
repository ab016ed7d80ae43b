// The variables of a body: in the order of their first assignments, and found by their names.
ghost use Rattle.std.specs.Prelude.{◌≡◌, ◌++◌, ◌∷◌, [], None, Some, OnOk, IfOk, MatchOption, length, map, slice_get};
ghost use Rattle.expr_types.specs.declared.known.Var.{Var as VarValue};
ghost use Rattle.expr_types.specs.Known.{var_in};

use bt_core::items::Items;
use bt_core::map::Shape;
use bt_core::memory::Memory;
use indexmap::IndexMap;
use std::alloc::Global;
use std::marker::Model;

/// The variables of a body, in the order of their first assignments, each with what it holds. A look-up by name takes about
/// the same time however many there are.
///
/// Contracts see the list of them and nothing else.
#[derive(Drop)]
pub struct Variables {
    shapes: IndexMap<Vec<u8>, Shape>,
}

impl Model for Variables {
    ghost use Rattle.std.specs.Prelude.{List};
    ghost use Rattle.expr_types.specs.declared.known.Var.{Var};
    ghost use Rattle.expr_types.specs.Indexed.{vars_by};

    ghost Value = { List Var };

    ghost view = { λ s. vars_by (λ k. k.items) s.shapes.entries };
}

impl Variables {
    /// No variables.
    pub fn new(alloc: Global) -> Variables
        ensures { result ≡ [] }
    {
        Variables {
            shapes: IndexMap::new(alloc),
        }
    }

    /// How many variables there are.
    pub fn len(&self) -> usize
        ensures { result ≡ length self.now }
    {
        self.shapes.len()
    }

    /// The variable of this name: its place and what it holds.
    pub fn find(&self, name: &[u8]) -> Option<(usize, Shape)>
        ensures { MatchOption result (var_in name.now self.now ≡ None)
            (λ found. (var_in name.now self.now ≡ Some found.1) × (slice_get self.now found.0 ≡ Some (record { name = name.now; shape = found.1 }))) }
    {
        match self.shapes.get_full(name) {
            None => None,
            Some((place, _, shape)) => Some((place, *shape)),
        }
    }

    /// What they hold, in their order.
    #[tactic(auto, using(crate::proofs::Indexing::shapes_held))]
    pub fn shapes(&self, alloc: Global) -> Result<Items<Shape>, Memory>
        ensures { IfOk result (λ shapes. shapes ≡ map (λ (v : VarValue). v.shape) self.now) }
    {
        let shapes: Vec<Shape> = self.shapes.values().copied().collect(alloc)?;
        Ok(Items::of(shapes))
    }

    /// Adds a variable at the end, where there is none of this name. After [`Memory`] nothing is known of the list.
    pub fn push(&mut self, alloc: Global, name: &[u8], shape: Shape) -> Result<(), Memory>
        requires { var_in name.now self.old ≡ None }
        ensures { OnOk result (self.new ≡ self.old ++ record { name = name.now; shape = shape } ∷ []) }
    {
        let name = Vec::from_slice(alloc, name)?;
        self.shapes.insert(name, shape)?;
        Ok(())
    }
}
