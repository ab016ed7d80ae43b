// The law on typed scripts.
ghost use Rattle.std.specs.Prelude.{◌≡◌, List};
ghost use Rattle.bt_ast.specs.declared.attached.BodyId.{BodyId};
ghost use Rattle.bt_ast.specs.declared.probe.Script.{Script};
ghost use Rattle.bt_types.specs.Script.{IsTypedScript};
ghost use Rattle.event_layout.specs.declared.format.Format.{Format};
ghost use Rattle.typed_tree.specs.declared.script.Typed.{Typed};

/// Of one script over the same formats and bodies there is one typed script at most: its maps, formats and trees, what each body
/// lists and the numbers of all that they name are a function of the script and of what it is attached to. The formats may be any.
pub fn scripts_have_one_typing()
    ensures { (script : Script) (formats : List Format) (bodies : List BodyId) (one other : Typed) →
        IsTypedScript script formats bodies one → IsTypedScript script formats bodies other → one ≡ other }
{}
