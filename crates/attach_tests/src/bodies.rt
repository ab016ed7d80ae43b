// The bodies of probes and of formats.
use crate::scripts::attached_to_three;
use bt_ast::attached::{BodyId, BodyPoint};
use bt_core::items::Items;
use std::test::Fail;

/// A script with points of each kind, two of which match one format.
const TEXT: &[u8] = b"BEGIN, t:t:*, interval:s:1, t:t:f, END { } t:*:f { } END { }";

/// Its bodies over the formats `t:e`, `t:f` and `u:f`: the probe and the point of each.
const BODIES: [(u32, BodyPoint); 8] = [
    (0, BodyPoint::Begin),
    (0, BodyPoint::End),
    (0, BodyPoint::Interval),
    (0, BodyPoint::Event(0)),
    (0, BodyPoint::Event(1)),
    (1, BodyPoint::Event(1)),
    (1, BodyPoint::Event(2)),
    (2, BodyPoint::End),
];

/// The bodies of each format.
const BY_FORMAT: [&[u32]; 3] = [&[3], &[4, 5], &[6]];

fn are_bodies(bodies: &[BodyId], wanted: &[(u32, BodyPoint)]) -> bool {
    for (body, (probe, point)) in bodies.iter().zip(wanted) {
        if body.probe != *probe || body.point != *point {
            return false;
        }
    }
    bodies.len() == wanted.len()
}

fn are_numbers(lists: &[Items<u32>], wanted: &[&[u32]]) -> bool {
    for (list, numbers) in lists.iter().zip(wanted) {
        if list.as_slice() != *numbers {
            return false;
        }
    }
    lists.len() == wanted.len()
}

#[test]
fn bodies_stand_in_their_order(rt: HostRuntime) -> Result<(), Fail> {
    let alloc = rt.alloc();
    let attached = attached_to_three(alloc, TEXT, 0, 0)??;
    assert!(rt; are_bodies(attached.bodies.as_slice(), &BODIES[..]));
    assert!(rt; are_numbers(attached.by_format.as_slice(), &BY_FORMAT[..]));
    assert!(rt; attached.begin.as_slice() == [0].as_slice());
    assert!(rt; attached.end.as_slice() == [1, 7].as_slice());
    Ok(())
}
