// What holds of merged rows.
ghost use Rattle.std.specs.Prelude.{◌≡◌, List};
ghost use Rattle.std.specs.List.{All};
ghost use Rattle.bt_core.specs.declared.item.Cell.{Cell as CellValue};
ghost use Rattle.bt_core.specs.declared.map.MapDecl.{MapDecl as Decl};
ghost use Rattle.bt_core.specs.declared.map.MapKind.{MapKind as Kind};
ghost use Rattle.bt_core.specs.declared.step.Reply.{Reply};
ghost use Rattle.bt_core.specs.declared.value.Value.{Value};
ghost use Rattle.map_rows.specs.Fits.{IsReadReply, IsRowOf};
ghost use Rattle.map_rows.specs.Merged.{merged, HasRowsOf};
ghost use Rattle.map_rows.specs.MergedRows.{AreMergedRows};

/// The merged rows have all keys of the replies in key order, each once, under each key of an aggregation
/// the merged aggregate of all that the replies hold there, and under any other the first value; and no
/// other rows are such.
pub fn merged_rows_are()
    ensures these { (kind : Kind) (replies : List Reply) → AreMergedRows kind replies (merged kind replies) }
    ensures alone { (kind : Kind) (replies : List Reply) (rows : List (List Value × CellValue)) →
        AreMergedRows kind replies rows → rows ≡ merged kind replies }
{}

/// Replies to who reads a map can be merged, and the map can hold the merged rows.
pub fn merged_rows_fit()
    ensures replies { (decl : Decl) (reply : Reply) → IsReadReply decl reply → HasRowsOf decl.kind reply }
    ensures rows { (decl : Decl) (replies : List Reply) → All (IsReadReply decl) replies → All (IsRowOf decl) (merged decl.kind replies) }
{}
