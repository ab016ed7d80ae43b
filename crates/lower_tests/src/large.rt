// A script of as many bytes as may be.
use body_fixtures::lowered::lowering_time;
use bt_core::memory::Memory;
use std::alloc::Global;
use std::test::Fail;

/// Statements of 8 bytes, 256 bytes with an `if` and a loop.
const STATEMENTS: &[u8] = b"if (@a == 1) { @b = 2; } else { @c++; } unroll (2) { @d++; }    \
@x = 1; @x = 1; @x = 1; @x = 1; @x = 1; @x = 1; @x = 1; @x = 1; @x = 1; @x = 1; @x = 1; @x = 1; \
@x = 1; @x = 1; @x = 1; @x = 1; @x = 1; @x = 1; @x = 1; @x = 1; @x = 1; @x = 1; @x = 1; @x = 1; ";

/// A text of 65,536 bytes with one body.
fn large_text(alloc: Global) -> Result<Vec<u8>, Memory> {
    let mut text = Vec::from_slice(alloc, b"BEGIN { ")?;
    for _ in 0..255 {
        text.extend_from_slice(STATEMENTS)?;
    }
    text.extend_from_slice(&[b' '; 247])?;
    text.push(b'}')?;
    Ok(text)
}

#[test]
fn a_script_of_65536_bytes_is_lowered_in_a_second(rt: HostRuntime) -> Result<(), Fail> {
    let alloc = rt.alloc();
    let text = large_text(alloc)?;
    assert_eq!(rt; text.len(), 65_536);
    let (bodies, taken) = lowering_time(&rt, alloc, text.as_slice())?;
    assert_eq!(rt; bodies, 1);
    assert!(rt; taken.as_millis() < 1000);
    Ok(())
}
