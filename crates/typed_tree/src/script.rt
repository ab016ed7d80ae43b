// Typed scripts.
ghost use Rattle.std.specs.Prelude.{IsTrue};
ghost use Rattle.std.specs.List.{list_all};
ghost use Rattle.typed_tree.specs.Scope.{is_fine_decl};
ghost use Rattle.typed_tree.specs.Script.{AreIn};

use crate::body::TypedBody;
use bt_core::items::Items;
use bt_core::map::MapDecl;
use fmt_text::piece::Piece;

/// A typed script: its maps in the order of their first mention, the formats of its `printf` calls in the order of the
/// calls, its bodies by their numbers, and whether `exit()` stands in it.
pub struct Typed {
    pub maps: Items<MapDecl>,
    pub formats: Items<Items<Piece>>,
    pub bodies: Items<TypedBody>,
    pub uses_exit: bool,
    /// The declarations are well formed, and keys have at most four parts.
    pub ghost fine: { IsTrue (list_all is_fine_decl maps) },
    /// The maps and formats of each body stand in the script's at their numbers.
    pub ghost placed: { ∥ AreIn maps formats bodies ∥₁ },
}

// Written out, so that it is one call wherever such a value is let go.
impl Drop for Typed {
    fn drop(self) {
        let Self {
            maps: _,
            formats: _,
            bodies: _,
            uses_exit: _,
        } = self;
    }
}
