// Laws of the calls of walks.
ghost use Rattle.std.specs.Prelude.{ℕ, List};
ghost use Rattle.bt_core.specs.declared.context.Context.{Context};
ghost use Rattle.typed_tree.specs.declared.body.TypedBody.{TypedBody};
ghost use Rattle.walk_meaning.specs.Walk.{walk};
ghost use Rattle.total_laws.specs.WalkCalls.{IsWalkCall, OnlyCalls};

/// Whatever is replied, a walk makes each operation under a key at the key's part, adds at the tables of its own actor alone, and
/// makes no operation at the clock but a stop.
pub fn walks_make_such_calls()
    ensures { (body : TypedBody) (context : Context) (payload : List ℕ) (actor actors : ℕ) →
        OnlyCalls (IsWalkCall actor) (walk body context payload actor actors) }
{}
