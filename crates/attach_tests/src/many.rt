// As many formats, probes and bodies as may be.
use body_fixtures::scripts::attached_to;
use bt_attach::error::AttachError;
use bt_core::items::Items;
use bt_core::memory::Memory;
use bt_core::place::Place;
use event_layout::format::Format;
use event_layout::layout::Layout;
use std::alloc::Global;
use std::test::Fail;

/// What names end in.
const ENDS: &[u8; 64] = b"0123456789ABCDEFGHIJKLMNOPQRSTUVWXYZabcdefghijklmnopqrstuvwxyz_-";

/// A format without fields.
fn format_of(alloc: Global, system: &[u8], name: &[u8]) -> Result<Format, Memory> {
    let system = Items::from_slice(alloc, system)?;
    let name = Items::from_slice(alloc, name)?;
    Ok(Format {
        system,
        text: Items::new(alloc),
        layout: Layout {
            name,
            id: 1,
            fields: Items::new(alloc),
            size: 0,
        },
    })
}

/// 4,096 formats: 64 of each of 64 systems.
fn many_formats(alloc: Global) -> Result<Vec<Format>, Memory> {
    let mut formats = Vec::new(alloc);
    for system in ENDS {
        for name in ENDS {
            formats.push(format_of(alloc, &[b's', *system], &[b'n', *name])?)?;
        }
    }
    Ok(formats)
}

/// 64 probes with a body for each format of a system, the first of them with more points.
fn many_probes(alloc: Global, more: &[u8]) -> Result<Vec<u8>, Memory> {
    let mut text = Vec::from_slice(alloc, more)?;
    for system in ENDS {
        text.extend_from_slice(&[b't', b':', b's', *system])?;
        text.extend_from_slice(b":*n* { }\n")?;
    }
    Ok(text)
}

#[test]
fn as_many_bodies_as_may_be_are_attached(rt: HostRuntime) -> Result<(), Fail> {
    let alloc = rt.alloc();
    let formats = many_formats(alloc)?;
    let text = many_probes(alloc, b"")?;
    let attached = attached_to(alloc, text.as_slice(), formats.as_slice(), 0, 0)??;
    assert_eq!(rt; attached.bodies.len(), 4096);
    Ok(())
}

#[test]
fn one_body_more_is_refused(rt: HostRuntime) -> Result<(), Fail> {
    let alloc = rt.alloc();
    let formats = many_formats(alloc)?;
    let text = many_probes(alloc, b"END, ")?;
    let answer = attached_to(alloc, text.as_slice(), formats.as_slice(), 0, 0)?;
    let last = Place {
        line: 64,
        column: 1,
    };
    assert_eq!(rt; answer.err(), Some(AttachError::TooManyAttached(last)));
    Ok(())
}
