// That the text of a tree is read back.
ghost use Rattle.std.specs.Prelude.{List, ℕ};
ghost use Rattle.ast_text.specs.Scripts.{script_text};
ghost use Rattle.bt_ast.specs.declared.probe.Script.{Script};
ghost use Rattle.bt_grammar.specs.Grammar.{IsTreeOf};
ghost use Rattle.bt_grammar.specs.Refusals.{IsAccepted};
ghost use Rattle.bt_grammar.specs.Tokens.{items};
ghost use Rattle.bt_lexer.specs.Tokens.{IsTokensOf};
ghost use Rattle.bt_lexer.specs.declared.token.Token.{Token};
ghost use Rattle.read_back_laws.specs.ReadBack.{IsAcceptedAs, IsReadAs};

/// For each script that is the tree of some text, the script's own text has tokens whose tree is the same script,
/// places aside. Where nothing is refused in the first text, nothing is in the second: it is nested no deeper.
pub fn a_text_is_read_back()
    ensures tree { (text : List ℕ) (tokens : List Token) (script : Script) → IsTokensOf text tokens → IsTreeOf (items tokens) script
        → IsReadAs (script_text script) script }
    ensures accepted { (text : List ℕ) (tokens : List Token) (script : Script) → IsTokensOf text tokens → IsAccepted (items tokens) script
        → IsAcceptedAs (script_text script) script }
{}
