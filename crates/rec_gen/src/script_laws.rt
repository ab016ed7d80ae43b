// Laws of the script.
ghost use Rattle.std.specs.Prelude.{◌≡◌, ℕ, None};
ghost use Rattle.rec_gen.specs.declared.format.TheConstants.{TEXT};
ghost use Rattle.rec_gen.specs.declared.script.TheConstants.{SCRIPT};
ghost use Rattle.bt_ast.specs.declared.attached.Attached.{Attached};
ghost use Rattle.bt_meaning.specs.Totals.{IsAggregationOnly};
ghost use Rattle.recordings.specs.declared.recording.Recording.{Recording};
ghost use Rattle.rec_gen.specs.Made.{IsMade};
ghost use Rattle.script_programs.specs.Sizes.{first_size_fault};
ghost use Rattle.typed_tree.specs.declared.script.Typed.{Typed};
ghost use Rattle.rec_gen.specs.Jobs.{IsAttachedOver, IsTypedOver, HaveFewTotals};
ghost use Rattle.rec_gen.specs.Texts.{big_script, made_text};
ghost use Rattle.rec_gen.specs.Tree.{IsScriptFor};

/// Over a made recording nothing of the script is refused: it has tokens and a tree, none of its points breaks a rule of attaching, none of
/// its bodies a rule of types, and none needs too large a frame or too much code.
pub fn script_is_accepted()
    ensures accepted { (seed count : ℕ) (r : Recording) → IsMade seed count r → IsScriptFor r }
    ensures small { (seed count : ℕ) (r : Recording) (typed : Typed) → IsMade seed count r → IsTypedOver r typed →
        first_size_fault 0 typed.bodies ≡ None }
{}

/// Over a made recording the script only adds, and each of its maps has fewer keys than an object can hold.
pub fn script_only_adds()
    ensures only { (seed count : ℕ) (r : Recording) (typed : Typed) → IsMade seed count r → IsTypedOver r typed → IsAggregationOnly typed }
    ensures few { (seed count : ℕ) (r : Recording) (attached : Attached) (typed : Typed) → IsMade seed count r → IsAttachedOver r attached →
        IsTypedOver r typed → HaveFewTotals typed attached r }
{}

/// The script of `big`, and the format text of a made recording, are these. Nothing runs.
pub fn texts_are()
    ensures script { SCRIPT ≡ big_script }
    ensures format { TEXT ≡ made_text }
{}
