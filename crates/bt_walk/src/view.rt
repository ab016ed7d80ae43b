// What is read of what the run of a body sees.
ghost use Rattle.std.specs.Prelude.{◌≡◌};
ghost use Rattle.walk_meaning.specs.Maps.{kind_in_body};

use bt_core::map::{MapDecl, MapId, MapKind};

/// What a map holds, by the first declaration of its number.
pub fn kind_in_body(map: MapId, maps: &[(MapId, MapDecl)]) -> MapKind
    ensures { result ≡ kind_in_body map maps.now }
{
    for declared in maps {
        if declared.0 == map {
            return declared.1.kind;
        }
    }
    MapKind::Ints
}
