// What holds of all walks.
ghost use Rattle.std.specs.Prelude.{All, ◌≡◌, ◌++◌, ℕ, List, Some, slice_get};
ghost use Rattle.bt_core.specs.declared.context.Context.{Context};
ghost use Rattle.bt_core.specs.declared.step.Reply.{Reply};
ghost use Rattle.bt_core.specs.Interaction.{Call, calls, value_under};
ghost use Rattle.typed_tree.specs.declared.body.TypedBody.{TypedBody};
ghost use Rattle.bt_core.specs.declared.ending.Ending.{Ending};
ghost use Rattle.bt_core.specs.Ports.{Setting};
ghost use Rattle.fmt_text.specs.declared.piece.Piece.{Piece};
ghost use Rattle.map_rows.specs.Items.{IsItemOf};
ghost use Rattle.walk_meaning.specs.Admits.{Admits, AdmitsOf, EmitsOnly};
ghost use Rattle.walk_meaning.specs.Reading.{Reader, TakesWhatIsThere, own_reader, walk_by};
ghost use Rattle.walk_meaning.specs.SameUnder.{SameUnder, SameAlways, AreRepliesTo};
ghost use Rattle.walk_meaning.specs.Walk.{walk};
ghost use Rattle.walk_meaning.specs.Served.{CanWalk};

/// Under more replies the calls of a walk begin with those under fewer. Where it has ended under the fewer, it makes the
/// same calls under the more, and ends in the same way.
pub fn more_replies_go_on()
    ensures begins { (body : TypedBody) (context : Context) (payload : List ℕ) (actor actors : ℕ) (replies more : List Reply) →
        (further : List Call) ×
        (calls (walk body context payload actor actors) (replies ++ more) ≡ calls (walk body context payload actor actors) replies ++ further) }
    ensures same { (body : TypedBody) (context : Context) (payload : List ℕ) (actor actors : ℕ) (replies more : List Reply) (ending : Ending) →
        value_under (walk body context payload actor actors) replies ≡ Some ending →
        calls (walk body context payload actor actors) (replies ++ more) ≡ calls (walk body context payload actor actors) replies }
    ensures ended { (body : TypedBody) (context : Context) (payload : List ℕ) (actor actors : ℕ) (replies more : List Reply) (ending : Ending) →
        value_under (walk body context payload actor actors) replies ≡ Some ending →
        value_under (walk body context payload actor actors) (replies ++ more) ≡ Some ending }
{}

/// Under replies of the kinds that its operations have, a walk makes only calls that a port takes that serves the maps of
/// its body, whose actor walks, and whose tables are those of all actors.
pub fn only_what_is_served_is_asked()
    ensures { (setting : Setting) (body : TypedBody) (context : Context) (payload : List ℕ) (actor actors : ℕ) →
        CanWalk setting body context payload actor actors → Admits setting (λ ending. Unit {0}) (walk body context payload actor actors) }
{}

/// Items that a walk emits are of the script's formats and maps, where the body's formats stand at their numbers in the script's, as
/// long as each reply is of the kind that its operation has: the values of a `printf` call fit its format, and the rows of a
/// printed map are rows that the map can hold, divided by 1 at least. So each of them has a text.
pub fn only_own_items_are_emitted()
    ensures { (setting : Setting) (formats : List (List Piece)) (body : TypedBody) (context : Context) (payload : List ℕ) (actor actors : ℕ) →
        CanWalk setting body context payload actor actors → All (λ (f : ℕ × List Piece). slice_get formats f.0 ≡ Some f.1) body.formats →
        AdmitsOf (λ object op. EmitsOnly (IsItemOf formats setting.maps) op) setting.maps (λ ending. Unit {0}) (walk body context payload actor actors) }
{
    map_rows::laws::merged_rows_fit();
}
/// Under replies of the kinds that its operations have, a walk reads no reply as another kind than it is. So nothing depends on what
/// it would read of such a reply: by any reader that takes what is there where it is there, and anything at all where it
/// is not, the walk is the same.
///
/// The walk by a reader is this crate's walk where the reader is its own one, whatever the replies are (`own`). By another
/// reader it is the same as long as each reply is of the kind that its call has (`same`): under a list of such replies it
/// makes the same calls (`calls`) and ends in the same way, or does not end (`ending`).
pub fn replies_are_what_they_are_read_as()
    ensures own { (body : TypedBody) (context : Context) (payload : List ℕ) (actor actors : ℕ) →
        SameAlways (walk_by own_reader body context payload actor actors) (walk body context payload actor actors) }
    ensures same { (setting : Setting) (body : TypedBody) (context : Context) (payload : List ℕ) (actor actors : ℕ) (reader : Reader) →
        CanWalk setting body context payload actor actors → TakesWhatIsThere reader →
        SameUnder setting.maps (walk_by reader body context payload actor actors) (walk body context payload actor actors) }
    ensures calls { (setting : Setting) (body : TypedBody) (context : Context) (payload : List ℕ) (actor actors : ℕ) (reader : Reader) (replies : List Reply) →
        CanWalk setting body context payload actor actors → TakesWhatIsThere reader → AreRepliesTo setting.maps (walk body context payload actor actors) replies →
        calls (walk_by reader body context payload actor actors) replies ≡ calls (walk body context payload actor actors) replies }
    ensures ending { (setting : Setting) (body : TypedBody) (context : Context) (payload : List ℕ) (actor actors : ℕ) (reader : Reader) (replies : List Reply) →
        CanWalk setting body context payload actor actors → TakesWhatIsThere reader → AreRepliesTo setting.maps (walk body context payload actor actors) replies →
        value_under (walk_by reader body context payload actor actors) replies ≡ value_under (walk body context payload actor actors) replies }
{}
