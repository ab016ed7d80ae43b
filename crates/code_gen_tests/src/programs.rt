// Programs of worked bodies: how many slots they may need, and their fuel.
use crate::frames::EIGHT;
use body_fixtures::lowered::probe_of;
use bpf_codegen::generate::generate_program;
use bpf_encode::program::Program;
use bpf_frame::error::CodeError;
use bt_core::memory::Memory;
use std::alloc::Global;
use std::test::Fail;

/// The text of a body that prints a format so many times.
fn printing(alloc: Global, times: usize) -> Result<Vec<u8>, Memory> {
    let mut text = Vec::from_slice(alloc, b"BEGIN { ")?;
    for _ in 0..times {
        text.extend_from_slice(b"printf(\"a\"); ")?;
    }
    text.push(b'}')?;
    Ok(text)
}

/// The program of a script's one body, or why it has none.
fn program_of(alloc: Global, text: &[u8]) -> Result<Result<Program, CodeError>, Fail> {
    let probe = probe_of(alloc, text)?;
    Ok(generate_program(alloc, &probe))
}

#[test]
fn bodies_that_are_too_large_have_no_program(rt: HostRuntime) -> Result<(), Fail> {
    let alloc = rt.alloc();
    let text = printing(alloc, 255)?;
    let fault = program_of(alloc, text.as_slice())?.err();
    assert_eq!(rt; fault, Some(CodeError::CodeTooLarge(4112)));
    // A large frame is told first.
    let fault = program_of(alloc, EIGHT)?.err();
    assert_eq!(rt; fault, Some(CodeError::FrameTooLarge(600)));
    Ok(())
}

#[test]
fn a_body_of_4096_slots_has_a_program(rt: HostRuntime) -> Result<(), Fail> {
    let alloc = rt.alloc();
    let text = printing(alloc, 254)?;
    let program = program_of(alloc, text.as_slice())??;
    let slots = program.bytes.len() / 8;
    assert!(rt; 0 < slots && slots <= 4096);
    assert_eq!(rt; program.bytes.len() % 8, 0);
    assert_eq!(rt; program.fuel, 4098 * slots as u64);
    Ok(())
}

/// `exit()`: a call of the helper 9, and an exit. Behind it stands the body's end, to which nothing leads here.
#[test]
fn a_body_that_stops_calls_the_helper_and_ends(rt: HostRuntime) -> Result<(), Fail> {
    let alloc = rt.alloc();
    let program = program_of(alloc, b"BEGIN { exit(); }")??;
    let wanted = b"\x85\0\0\0\x09\0\0\0\x95\0\0\0\0\0\0\0\x95\0\0\0\0\0\0\0";
    assert_eq!(rt; program.bytes.as_slice(), &wanted[..]);
    assert_eq!(rt; program.fuel, 3 * 4098);
    Ok(())
}

/// Worked bodies, and how many slots their programs have at most.
const FEW: [(&[u8], usize); 8] = [
    (
        b"tracepoint:raw_syscalls:sys_enter { @[comm] = count(); }",
        25,
    ),
    (b"tracepoint:raw_syscalls:sys_enter { @ = count(); }", 7),
    (
        b"tracepoint:raw_syscalls:sys_enter { @ = hist(args.id); }",
        9,
    ),
    (
        b"tracepoint:raw_syscalls:sys_enter { @start[tid] = nsecs; }",
        16,
    ),
    (
        b"tracepoint:raw_syscalls:sys_enter { $i = 0; while ($i < 1000) { $i = $i + 1; } @x = $i; }",
        23,
    ),
    (
        b"tracepoint:raw_syscalls:sys_enter { @calls[comm] = count(); @ids = hist(args.id); \
@sum = sum(args.id); }",
        41,
    ),
    (b"tracepoint:raw_syscalls:sys_enter { @i++; }", 16),
    (
        b"tracepoint:raw_syscalls:sys_enter { @c = count(); @x = @c; }",
        20,
    ),
];

fn bytes_of(alloc: Global, text: &[u8]) -> Result<usize, Fail> {
    Ok(program_of(alloc, text)??.bytes.len())
}

#[test]
fn programs_of_worked_bodies_have_few_slots(rt: HostRuntime) -> Result<(), Fail> {
    let alloc = rt.alloc();
    for (number, row) in FEW.iter().enumerate() {
        let bytes = bytes_of(alloc, row.0)?;
        assert!(rt; bytes.div_ceil(8) <= row.1, "row {number}: {bytes} bytes");
    }
    Ok(())
}
