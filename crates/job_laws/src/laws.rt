// The law on scripts that are attached and have types.
ghost use Rattle.std.specs.Prelude.{◌≡◌, None};
ghost use Rattle.bt_ast.specs.declared.attached.Attached.{Attached};
ghost use Rattle.bt_ast.specs.declared.probe.Script.{Script};
ghost use Rattle.bt_attach.specs.Attaching.{IsAttachedTo, attach_fault};
ghost use Rattle.bt_meaning.specs.Jobs.{IsJob};
ghost use Rattle.bt_types.specs.Script.{IsTypedScript};
ghost use Rattle.recordings.specs.declared.recording.Recording.{Recording};
ghost use Rattle.recordings.specs.Recordings.{IsValidRecording};
ghost use Rattle.typed_tree.specs.declared.script.Typed.{Typed};

/// What a script is attached to over a valid recording, and the script with its types, can be run: its bodies are there with
/// the layouts of their events, its ticks stand in turn, and there are no more of both than a script may have.
pub fn accepted_scripts_are_jobs()
    ensures { (script : Script) (typed : Typed) (attached : Attached) (r : Recording) → IsValidRecording r →
        attach_fault script r.formats r.start r.end ≡ None → IsAttachedTo script r.formats r.start r.end attached →
        IsTypedScript script r.formats attached.bodies typed → IsJob typed attached r }
{}
