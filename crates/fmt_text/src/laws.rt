// Laws of the definitions: a text has one answer, and a function tells it.
ghost use Rattle.std.specs.Prelude.{◌≡◌, ℕ, List, Some, None};
ghost use Rattle.fmt_text.specs.declared.piece.Piece.{Piece as PieceValue};
ghost use Rattle.fmt_text.specs.Deciding.{format_pieces};
ghost use Rattle.fmt_text.specs.Formats.{IsFormat, IsBadAt};

/// A text has one list of pieces at most, or one bad place at most, and never both.
pub fn one_answer()
    ensures pieces { (text : List ℕ) (a b : List PieceValue) → IsFormat text a → IsFormat text b → a ≡ b }
    ensures place { (text : List ℕ) (a b : ℕ) → IsBadAt text a → IsBadAt text b → a ≡ b }
    ensures either { (text : List ℕ) (pieces : List PieceValue) (offset : ℕ) → IsFormat text pieces → IsBadAt text offset → ⊥ }
{}

/// The function on texts that decides formats answers a format's pieces, and none at a text that is no format.
pub fn format_is_decided()
    ensures read { (text : List ℕ) (pieces : List PieceValue) → IsFormat text pieces → format_pieces text ≡ Some pieces }
    ensures format { (text : List ℕ) (pieces : List PieceValue) → format_pieces text ≡ Some pieces → IsFormat text pieces }
    ensures bad { (text : List ℕ) (offset : ℕ) → IsBadAt text offset → format_pieces text ≡ None }
{}
