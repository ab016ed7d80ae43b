// The walks of the bodies that the other tests write out.
ghost use Rattle.std.specs.Prelude.{◌≡◌, ℕ, List, [], ◌∷◌};
ghost use Rattle.bt_core.specs.declared.context.Context.{Context};
ghost use Rattle.bt_core.specs.declared.ending.Ending.TheVariants.{End, Exit};
ghost use Rattle.bt_core.specs.Interaction.{Ended};
ghost use Rattle.typed_tree.specs.declared.body.TypedBody.{TypedBody};
ghost use Rattle.walk_meaning.specs.Walk.{walk};
ghost use Rattle.meaning_tests.specs.Bodies.{HasStatements, clear_statement, count_statement, exit_statement, print_statement};
ghost use Rattle.meaning_tests.specs.Written.{clears, counts, counts_decl, counts_one, prints, stops};

// `@ = count()` adds a one to the actor's own table; `print(@)` reads the tables of all actors and emits what they hold, merged;
// `clear(@)` clears them all; and `exit()` makes the one stop.
fn walks_are_these()
    ensures count { (body : TypedBody) (context : Context) (payload : List ℕ) (actor actors : ℕ) → HasStatements (count_statement ∷ []) body →
        walk body context payload actor actors ≡ counts_one actor [] End }
    ensures print { (body : TypedBody) (context : Context) (payload : List ℕ) (actor : ℕ) → HasStatements (print_statement ∷ []) body →
        body.maps ≡ (counts, counts_decl) ∷ [] → walk body context payload actor 3 ≡ prints 3 (Ended End) }
    ensures print_and_clear { (body : TypedBody) (context : Context) (payload : List ℕ) (actor : ℕ) →
        HasStatements (print_statement ∷ clear_statement ∷ []) body → body.maps ≡ (counts, counts_decl) ∷ [] →
        walk body context payload actor 3 ≡ prints 3 (clears 3 End) }
    ensures exit { (body : TypedBody) (context : Context) (payload : List ℕ) (actor actors : ℕ) → HasStatements (exit_statement ∷ []) body →
        walk body context payload actor actors ≡ stops Exit }
{}

#[test]
fn walks_of_written_bodies() {
    walks_are_these();
}
