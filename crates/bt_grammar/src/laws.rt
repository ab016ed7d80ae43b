// What holds of every list of tokens.
ghost use Rattle.std.specs.Prelude.{◌≡◌, ◌↔◌, ◌++◌, ◌≤◌, length, List};
ghost use Rattle.bt_ast.specs.declared.probe.Script.{Script};
ghost use Rattle.bt_core.specs.declared.limits.TheConstants.{PROBES};
ghost use Rattle.bt_grammar.specs.declared.error.ParseError.{ParseError};
ghost use Rattle.bt_grammar.specs.Form.{Item};
ghost use Rattle.bt_grammar.specs.Grammar.{Begins, IsTreeOf};
ghost use Rattle.bt_grammar.specs.Mentions.{IsPartOf, formats_of, maps_of, token_maps, token_texts};
ghost use Rattle.bt_grammar.specs.Refusals.{IsAccepted, IsRefusal};
ghost use Rattle.bt_grammar.specs.Vocabulary.{punctuation, vocabulary};
ghost use Rattle.bt_grammar.specs.Words.{marks, words};

/// A list of tokens has at most one tree and at most one first fault, and not both, and a list that is a script begins one.
pub fn one_answer()
    ensures tree { (tokens : List Item) (one other : Script) → IsTreeOf tokens one → IsTreeOf tokens other → one ≡ other }
    ensures fault { (tokens : List Item) (one other : ParseError) → IsRefusal tokens one → IsRefusal tokens other → one ≡ other }
    ensures apart { (tokens : List Item) (script : Script) (fault : ParseError) → IsAccepted tokens script → IsRefusal tokens fault → ⊥ }
    ensures begins { (tokens : List Item) (script : Script) → IsTreeOf tokens script → Begins tokens }
{}

/// A list begins a script exactly where it is a front of some script's list.
pub fn begun_lists()
    ensures { (tokens : List Item) → Begins tokens ↔ ((rest : List Item) × (script : Script) × IsTreeOf (tokens ++ rest) script) }
{}

/// A script in which nothing is refused has as many probes as a script may have, or fewer.
pub fn few_probes()
    ensures { (tokens : List Item) (script : Script) → IsAccepted tokens script → length script.probes ≤ PROBES }
{}

/// The maps of a script in preorder are its Map tokens in their order. The formats of its printf calls, in preorder, are some of its
/// Text tokens in their order, so there are no more calls than tokens.
pub fn mentions_in_order()
    ensures maps { (tokens : List Item) (script : Script) → IsTreeOf tokens script → maps_of script ≡ token_maps tokens }
    ensures formats { (tokens : List Item) (script : Script) → IsTreeOf tokens script → IsPartOf (formats_of script) (token_texts tokens) }
    ensures few { (tokens : List Item) (script : Script) → IsTreeOf tokens script → length (formats_of script) ≤ length tokens }
{}

/// The words and the marks that the grammar names are those of the language, each with its class.
pub fn words_are()
    ensures words { words ≡ vocabulary }
    ensures marks { marks ≡ punctuation }
{}
