// Laws of the definitions: what a format text has, and what its lines spell.
ghost use Rattle.std.specs.Prelude.{◌≡◌, ◌≤◌, ◌↔◌, ◌⊎◌, ℕ, List, Some, None, IsTrue};
ghost use Rattle.std.specs.List.{AllByRecursion};
ghost use Rattle.bt_core.specs.declared.limits.TheConstants.{LAYOUT_END};
ghost use Rattle.event_layout.specs.declared.error.FormatError.{FormatError};
ghost use Rattle.event_layout.specs.declared.field.Field.{Field};
ghost use Rattle.event_layout.specs.declared.format.Format.{Format};
ghost use Rattle.event_layout.specs.declared.layout.Layout.{Layout};
ghost use Rattle.event_layout.specs.ByName.{field_named, full_name, IsFieldNamed, IsNamed};
ghost use Rattle.event_layout.specs.FieldLines.{Description, IsFieldLine};
ghost use Rattle.event_layout.specs.Layouts.{IsLayoutOf, layout_fault};
ghost use Rattle.event_layout.specs.Lines.{IsNameLine, IsIdLine};
ghost use Rattle.event_layout.specs.Names.{has_no_colon};
ghost use Rattle.event_layout.specs.Reading.{name_on, id_on, field_on};
ghost use Rattle.event_layout.specs.Sizes.{end_of};

/// Each text has either one layout or a first rule that it breaks.
pub fn one_answer()
    ensures some { (text : List ℕ) → ((layout : Layout) × IsLayoutOf text layout) ⊎ ((e : FormatError) × (layout_fault text ≡ Some e)) }
    ensures not_both { (text : List ℕ) (layout : Layout) → IsLayoutOf text layout → layout_fault text ≡ None }
    ensures one { (text : List ℕ) (a b : Layout) → IsLayoutOf text a → IsLayoutOf text b → a ≡ b }
{}

/// The lines that the faults speak of are those that are spelled so.
pub fn lines_as_spelled()
    ensures name { (line name : List ℕ) → (name_on line ≡ Some name) ↔ IsNameLine line name }
    ensures id { (line : List ℕ) (id : ℕ) → (id_on line ≡ Some id) ↔ IsIdLine line id }
    ensures field { (line : List ℕ) (field : Description) → (field_on line ≡ Some field) ↔ IsFieldLine line field }
{}

/// Each field of a layout ends inside its size, and no layout is longer than a field may reach.
pub fn fields_inside()
    ensures fields { (layout : Layout) → AllByRecursion (λ f. end_of f ≤ layout.size) layout.fields }
    ensures small { (layout : Layout) → layout.size ≤ LAYOUT_END }
{}

/// A name finds a field of a text's layout exactly where it is that field's, and not empty.
pub fn one_field_of_a_name()
    ensures { (text name : List ℕ) (layout : Layout) (field : Field) → IsLayoutOf text layout
        → (field_named name layout.fields ≡ Some field) ↔ IsFieldNamed name layout.fields field }
{}

/// Where no colon stands in their systems, two tracepoints are called by one name exactly where they belong to one
/// system and have one name.
pub fn one_tracepoint_of_a_name()
    ensures { (f g : Format) → IsTrue (has_no_colon f.system) → IsTrue (has_no_colon g.system)
        → (full_name f ≡ full_name g) ↔ IsNamed f g.system g.layout.name }
{}
