// Typed bodies.
ghost use Rattle.std.specs.Prelude.{IsTrue};
ghost use Rattle.std.specs.List.{list_all};
ghost use Rattle.typed_tree.specs.Scope.{all_fit, is_fine_decl};
ghost use Rattle.typed_tree.specs.Bodies.{tree_parts, scope_of};

use crate::expr::NumExpr;
use crate::stmt::TypedBlock;
use bt_core::items::Items;
use bt_core::map::{MapDecl, MapId, Shape};
use event_layout::layout::Layout;
use fmt_text::piece::Piece;

/// The typed predicate and block of a body, and the types of its variables by their numbers, in the order of their first assignments.
pub struct TypedTree {
    pub variables: Items<Shape>,
    pub predicate: Option<NumExpr>,
    pub block: TypedBlock,
}

// Written out, so that it is one call wherever such a value is let go.
impl Drop for TypedTree {
    fn drop(self) {
        let Self {
            variables: _,
            predicate: _,
            block: _,
        } = self;
    }
}

/// A typed body: its tree, the layout of its event where it has one, and the maps and formats that the tree names, by their
/// numbers in the script.
pub struct TypedBody {
    pub tree: TypedTree,
    pub layout: Option<Layout>,
    pub maps: Items<(MapId, MapDecl)>,
    pub formats: Items<(u32, Items<Piece>)>,
    /// The declarations are well formed, and keys have at most four parts.
    pub ghost fine: { IsTrue (list_all (λ m. is_fine_decl m.1) maps) },
    /// What the tree names is there and has the types in which it is used, and no rule of types is broken.
    pub ghost typed: { IsTrue (all_fit (scope_of maps formats layout tree.variables) (tree_parts tree)) },
}

// Written out, so that it is one call wherever such a value is let go.
impl Drop for TypedBody {
    fn drop(self) {
        let Self {
            tree: _,
            layout: _,
            maps: _,
            formats: _,
        } = self;
    }
}
