// Objects of two and of three members.
ghost use Rattle.std.specs.Prelude.{◌≡◌, codes, IfOk};
ghost use Rattle.serde_json.specs.Data.{string, object, no_members, member, put as with_member};
ghost use Rattle.serde_json.specs.View.{view};

use bt_core::memory::Memory;
use serde_json::{Map, Value as Json, put};
use std::alloc::Global;

/// The object of two members.
pub fn pair(
    alloc: Global,
    first: &str,
    one: Json,
    second: &str,
    other: Json,
) -> Result<Json, Memory>
    ensures { IfOk result (λ json. view json
        ≡ object (with_member second.now (view other) (member first.now (view one) no_members))) }
{
    let mut members = Map::new(alloc);
    put(&mut members, alloc, first, one)?;
    put(&mut members, alloc, second, other)?;
    Ok(Json::Object(members))
}

/// The object of a member and of what the line is.
pub fn typed(alloc: Global, kind: &str, first: &str, one: Json) -> Result<Json, Memory>
    ensures { IfOk result (λ json. view json
        ≡ object (with_member (codes "type") (string kind.now) (member first.now (view one) no_members))) }
{
    let kind = Json::try_from_str(alloc, kind)?;
    pair(alloc, first, one, "type", kind)
}

/// The object of two members and of what the line is.
pub fn typed_pair(
    alloc: Global,
    kind: &str,
    first: &str,
    one: Json,
    second: &str,
    other: Json,
) -> Result<Json, Memory>
    ensures { IfOk result (λ json. view json
        ≡ object (with_member (codes "type") (string kind.now)
        (with_member second.now (view other) (member first.now (view one) no_members)))) }
{
    let mut members = Map::new(alloc);
    put(&mut members, alloc, first, one)?;
    put(&mut members, alloc, second, other)?;
    put(
        &mut members,
        alloc,
        "type",
        Json::try_from_str(alloc, kind)?,
    )?;
    Ok(Json::Object(members))
}
