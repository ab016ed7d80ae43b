// Laws of the definition: what a body is made of is there, and a script is attached in one way.
ghost use Rattle.std.specs.Prelude.{◌≡◌, All, List, ℕ};
ghost use Rattle.bt_ast.specs.declared.attached.Attached.{Attached as AttachedValue};
ghost use Rattle.bt_ast.specs.declared.probe.Script.{Script as ScriptValue};
ghost use Rattle.event_layout.specs.declared.format.Format.{Format as FormatValue};
ghost use Rattle.bt_attach.specs.Attaching.{IsAttachedTo};
ghost use Rattle.bt_attach.specs.There.{IsThere};

/// The probe of each body stands in the script, and its event among the formats.
pub fn bodies_are_there()
    ensures { (script : ScriptValue) (formats : List FormatValue) (start end : ℕ) (attached : AttachedValue)
        → IsAttachedTo script formats start end attached → All (IsThere script formats) attached.bodies }
{}

/// A script is attached to a recording in one way at most: its bodies, those that run at each event, before and after all others, and its
/// ticks in their order follow from the script, the formats and the span.
pub fn attachments_are_one()
    ensures { (script : ScriptValue) (formats : List FormatValue) (start end : ℕ) (one other : AttachedValue)
        → IsAttachedTo script formats start end one → IsAttachedTo script formats start end other → one ≡ other }
{}
