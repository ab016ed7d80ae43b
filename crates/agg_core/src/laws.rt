// What holds of all aggregates and of all answers.
ghost use Rattle.std.specs.Prelude.{◌≡◌, ◌++◌, ◌↔◌, true, List, ℕ, ℤ, All};
ghost use Rattle.std.specs.List.Sorted.{IsStrictlySortedBy};
ghost use Rattle.bt_core.specs.declared.map.AggKind.{AggKind};
ghost use Rattle.bt_core.specs.declared.map.MapDecl.{MapDecl};
ghost use Rattle.bt_core.specs.declared.step.ObjectId.{ObjectId as Object};
ghost use Rattle.bt_core.specs.declared.step.Op.{Op};
ghost use Rattle.bt_core.specs.declared.value.Value.{Value as Part};
ghost use Rattle.bt_core.specs.Kinds.{IsFineKind, IsFineAgg, IsFineDecl};
ghost use Rattle.bt_core.specs.Order.{key_order};
ghost use Rattle.bt_core.specs.Ports.{Setting, CanStep, IsReplyOf};
ghost use Rattle.agg_core.specs.Aggregates.{aggregate, agg_merged};
ghost use Rattle.agg_core.specs.Answers.{answer};
ghost use Rattle.agg_core.specs.Changes.{Change, lives, live_keys};
ghost use Rattle.agg_core.specs.Lives.{IsPutForGood};

/// The aggregates of two lists, merged, are the aggregate of both lists, one after the other.
pub fn merged_is_of_both_lists()
    ensures { (kind : AggKind) (ms ns : List ℤ) → agg_merged (aggregate kind ms) (aggregate kind ns) ≡ aggregate kind (ms ++ ns) }
{}

/// The aggregate of a list of numbers is well formed where its kind is.
pub fn aggregates_are_well_formed()
    ensures { (kind : AggKind) (ns : List ℤ) → IsFineKind kind → IsFineAgg (aggregate kind ns) }
{}

/// A key lives exactly where a put of it was taken that nothing ended later.
pub fn keys_live_by_their_puts()
    ensures numbers { (changes : List (Change ℤ)) (key : List Part) → (lives changes key ≡ true) ↔ IsPutForGood changes key }
    ensures values { (changes : List (Change Part)) (key : List Part) → (lives changes key ≡ true) ↔ IsPutForGood changes key }
{}

/// The keys that live are listed in key order, each once.
pub fn live_keys_are_in_order()
    ensures numbers { (changes : List (Change ℤ)) → IsStrictlySortedBy key_order (live_keys changes) }
    ensures values { (changes : List (Change Part)) → IsStrictlySortedBy key_order (live_keys changes) }
{}

/// What an object answers to an operation that may be asked of it is a reply of the operation's kind,
/// where the maps are well formed and its earlier operations could be asked of it too.
pub fn answers_are_of_their_kinds()
    ensures { (setting : Setting) (cpus : ℕ) (object : Object) (before : List Op) (op : Op)
        → All IsFineDecl setting.maps → All (CanStep setting object) before → CanStep setting object op
        → IsReplyOf setting.maps object op (answer setting.maps cpus object before op) }
{}
