// Bodies with the declarations that their script has decided.
ghost use Rattle.std.specs.Prelude.{◌≡◌, All, IfOk, IsTrue, map, true};
ghost use Rattle.std.specs.List.{AllZip, list_all};
ghost use Rattle.typed_tree.specs.Scope.{is_fine_decl};
ghost use Rattle.expr_types.specs.declared.known.Printed.{Printed as PrintedValue};
ghost use Rattle.expr_types.specs.Known.{decl_in};
ghost use Rattle.bt_types.specs.Listed.{format_at, formats_at, map_at, maps_at};
ghost use Rattle.bt_types.specs.Open.{Closes, IsClosed};
ghost use Rattle.bt_types.specs.Script.{decl_or_none, maps_of};

use crate::body::OpenBody;
use bt_core::beside::beside;
use bt_core::items::Items;
use bt_core::map::{MapDecl, MapId, MapKind};
use bt_core::memory::{Memory, TryCopy};
use expr_types::known::Known;
use fmt_text::piece::Piece;
use std::alloc::Global;
use typed_tree::body::TypedBody;

/// The declaration of a map. One that was not decided holds whole numbers, and its keys have no parts.
fn decl_of(alloc: Global, known: &Known, name: &Items<u8>) -> Result<MapDecl, Memory>
    ensures { IfOk result (λ decl. decl ≡ decl_or_none name.now (decl_in name.now known.now.decided)) }
{
    match known.decl(name.as_slice()) {
        Some(decl) => decl.try_copy(alloc),
        None => {
            let name = name.try_copy(alloc)?;
            Ok(MapDecl {
                name,
                kind: MapKind::Ints,
                key_shape: Items::new(alloc),
            })
        }
    }
}

/// The maps of a script in the order of their first tokens.
pub(crate) fn maps_of(alloc: Global, known: &Known) -> Result<Items<MapDecl>, Memory>
    ensures { IfOk result (λ maps. maps ≡ maps_of known.now) }
{
    let mut maps = Items::new(alloc);
    for name in known.names.as_slice() {
        let decl = decl_of(alloc, known, name)?;
        maps.push(decl)?;
    }
    Ok(maps)
}

/// The formats of a script in the order of its calls.
pub(crate) fn formats_of(alloc: Global, known: Known) -> Result<Items<Items<Piece>>, Memory>
    ensures { IfOk result (λ formats. formats ≡ map (λ (p : PrintedValue). p.pieces) known.printed) }
{
    let Known { printed, .. } = known;
    printed.into_pieces(alloc)
}

/// The map of a number, with its number.
fn map_at(alloc: Global, maps: &[MapDecl], number: u32) -> Result<Option<(MapId, MapDecl)>, Memory>
    ensures { IfOk result (λ found. found ≡ map_at maps.now number) }
{
    match maps.get(number as usize) {
        None => Ok(None),
        Some(decl) => {
            let decl = decl.try_copy(alloc)?;
            Ok(Some((MapId(number), decl)))
        }
    }
}

/// The maps of these numbers.
fn maps_at(
    alloc: Global,
    maps: &[MapDecl],
    named: &[u32],
) -> Result<Items<(MapId, MapDecl)>, Memory>
    ensures { IfOk result (λ all. all ≡ maps_at maps.now named.now) }
{
    let mut all = Items::new(alloc);
    for number in named {
        if let Some(map) = map_at(alloc, maps, *number)? {
            all.push(map)?;
        }
    }
    Ok(all)
}

/// The format of a number, with its number.
fn format_at(
    alloc: Global,
    formats: &[Items<Piece>],
    number: u32,
) -> Result<Option<(u32, Items<Piece>)>, Memory>
    ensures { IfOk result (λ found. found ≡ format_at formats.now number) }
{
    match formats.get(number as usize) {
        None => Ok(None),
        Some(pieces) => {
            let pieces = pieces.try_copy(alloc)?;
            Ok(Some((number, pieces)))
        }
    }
}

/// The formats of these numbers.
fn formats_at(
    alloc: Global,
    formats: &[Items<Piece>],
    calls: &[u32],
) -> Result<Items<(u32, Items<Piece>)>, Memory>
    ensures { IfOk result (λ all. all ≡ formats_at formats.now calls.now) }
{
    let mut all = Items::new(alloc);
    for number in calls {
        if let Some(format) = format_at(alloc, formats, *number)? {
            all.push(format)?;
        }
    }
    Ok(all)
}

/// The maps and the formats that a body names.
fn named_in(
    alloc: Global,
    body: &OpenBody,
    maps: &[MapDecl],
    formats: &[Items<Piece>],
) -> Result<(Items<(MapId, MapDecl)>, Items<(u32, Items<Piece>)>), Memory>
    ensures { IfOk result (λ named. (named.0 ≡ maps_at maps.now body.now.named) × (named.1 ≡ formats_at formats.now body.now.calls)) }
{
    let maps = maps_at(alloc, maps, body.named.as_slice())?;
    let formats = formats_at(alloc, formats, body.calls.as_slice());
    beside(maps, formats)
}

/// A body with the declarations and formats that it names.
fn close_body(
    alloc: Global,
    body: OpenBody,
    maps: &Items<MapDecl>,
    formats: &Items<Items<Piece>>,
) -> Result<TypedBody, Memory>
    requires fine { list_all is_fine_decl maps.now ≡ true }
    requires fits { Closes maps.now formats.now body }
    ensures { IfOk result (λ typed. IsClosed maps.now formats.now body typed) }
{
    let named = named_in(alloc, &body, maps.as_slice(), formats.as_slice());
    let (body, (maps, formats)) = beside(body, named)?;
    let OpenBody { tree, layout, .. } = body;
    Ok(TypedBody {
        tree,
        layout,
        maps,
        formats,
    })
}

/// All bodies with the declarations and formats that they name.
pub(crate) fn close_bodies(
    alloc: Global,
    bodies: Items<OpenBody>,
    maps: &Items<MapDecl>,
    formats: &Items<Items<Piece>>,
) -> Result<Items<TypedBody>, Memory>
    requires fine { list_all is_fine_decl maps.now ≡ true }
    requires fits { All (Closes maps.now formats.now) bodies }
    ensures { IfOk result (λ all. AllZip (IsClosed maps.now formats.now) bodies all) }
{
    let mut all = Items::new(alloc);
    for body in bodies.into_vec() {
        let typed = close_body(alloc, body, maps, formats)?;
        all.push(typed)?;
    }
    Ok(all)
}
