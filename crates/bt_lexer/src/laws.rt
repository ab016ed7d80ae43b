// What holds of every text.
ghost use Rattle.std.specs.Prelude.{◌≡◌, ◌≤◌, ◌∷◌, ◌⊎◌, [], length, List, None, Some, ℕ};
ghost use Rattle.bt_lexer.specs.declared.error.LexError.{LexError};
ghost use Rattle.bt_lexer.specs.declared.token.Token.{Token};
ghost use Rattle.bt_lexer.specs.declared.token.TokenKind.{TokenKind};
ghost use Rattle.bt_lexer.specs.Places.{offset_of};
ghost use Rattle.bt_lexer.specs.Tokens.{IsFirstFault, IsToken, IsTokensOf, IsWithinLimits, Stands};

/// Every text has one list of tokens or one first fault, and none has both.
pub fn one_answer()
    ensures some { (text : List ℕ) → ((tokens : List Token) × IsTokensOf text tokens) ⊎ ((fault : LexError) × IsFirstFault text fault) }
    ensures tokens { (text : List ℕ) (one other : List Token) → IsTokensOf text one → IsTokensOf text other → one ≡ other }
    ensures fault { (text : List ℕ) (one other : LexError) → IsFirstFault text one → IsFirstFault text other → one ≡ other }
    ensures apart { (text : List ℕ) (tokens : List Token) (fault : LexError) → IsTokensOf text tokens → IsFirstFault text fault → ⊥ }
{}

/// A space behind a token ends it, whatever follows, so tokens that are written with a space behind
/// each are read again.
pub fn a_space_ends_a_token()
    ensures token { (kind : TokenKind) (bs rest : List ℕ) → IsToken kind bs → IsWithinLimits kind bs → Stands (Some kind) bs (32 ∷ rest) }
    ensures space { (rest : List ℕ) → Stands None (32 ∷ []) rest }
{}

/// A text has at most as many tokens as bytes, and its first fault stands in it or at its end.
pub fn few_tokens()
    ensures tokens { (text : List ℕ) (tokens : List Token) → IsTokensOf text tokens → length tokens ≤ length text }
    ensures fault { (text : List ℕ) (fault : LexError) → IsFirstFault text fault → offset_of fault ≤ length text }
{}
