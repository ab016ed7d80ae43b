// The frames of worked bodies.
use body_fixtures::lowered::probe_of;
use body_fixtures::worked::FIVE;
use bpf_frame::error::CodeError;
use bpf_frame::frame::Place;
use bpf_frame::placing::place_frame;
use std::alloc::Global;
use std::test::Fail;

/// Eight variables of 64 bytes, and one string more while it is assigned, beside the body's own 24 bytes: 600 bytes.
pub(crate) const EIGHT: &[u8] = b"BEGIN { $a = \"x\"; $b = \"x\"; $c = \"x\"; $d = \"x\"; \
$e = \"x\"; $f = \"x\"; $g = \"x\"; $h = \"x\"; }";

/// Six of them: 472 bytes.
const SIX: &[u8] =
    b"BEGIN { $a = \"x\"; $b = \"x\"; $c = \"x\"; $d = \"x\"; $e = \"x\"; $f = \"x\"; }";

/// Where the variables of the six lie.
const VARIABLES: [Place; 6] = [
    Place {
        offset: 0,
        size: 64,
    },
    Place {
        offset: 64,
        size: 64,
    },
    Place {
        offset: 128,
        size: 64,
    },
    Place {
        offset: 192,
        size: 64,
    },
    Place {
        offset: 256,
        size: 64,
    },
    Place {
        offset: 320,
        size: 64,
    },
];

/// A string is put over the variables.
const PUT: Place = Place {
    offset: 384,
    size: 64,
};

/// Then it is taken.
const TAKEN: Place = Place {
    offset: 384,
    size: 0,
};

/// Six strings, one after the other.
const TURNS: [Place; 12] = [
    PUT, TAKEN, PUT, TAKEN, PUT, TAKEN, PUT, TAKEN, PUT, TAKEN, PUT, TAKEN,
];

#[test]
fn eight_strings_have_no_room(rt: HostRuntime) -> Result<(), Fail> {
    let alloc = rt.alloc();
    let probe = probe_of(alloc, EIGHT)?;
    assert_eq!(rt;
        place_frame(alloc, &probe).err(),
        Some(CodeError::FrameTooLarge(600))
    );
    Ok(())
}

#[test]
fn six_strings_lie_below_the_one_that_is_assigned(rt: HostRuntime) -> Result<(), Fail> {
    let alloc = rt.alloc();
    let probe = probe_of(alloc, SIX)?;
    let frame = place_frame(alloc, &probe)?;
    assert_eq!(rt; frame.variables.as_slice(), &VARIABLES[..]);
    // The first block is the body's end; a run begins at the last one.
    match frame.blocks.as_slice() {
        [last, first] => {
            assert!(rt; last.puts.is_empty());
            assert_eq!(rt; (last.stack.len(), last.end), (0, 384));
            assert_eq!(rt; first.puts.as_slice(), &TURNS[..]);
            assert_eq!(rt; (first.stack.len(), first.end), (0, 384));
        }
        _ => return Err(Fail::from("no two blocks")),
    }
    Ok(())
}

/// A string and a number.
const MIXED: &[u8] = b"BEGIN { $s = \"x\"; $a = 1; }";

/// A script with one body, a variable and its register: of five numbers the first four have one, and a string has none.
const REGISTERS: [(&[u8], u32, Option<u8>); 8] = [
    (FIVE, 0, Some(6)),
    (FIVE, 1, Some(7)),
    (FIVE, 2, Some(8)),
    (FIVE, 3, Some(9)),
    (FIVE, 4, None),
    (FIVE, 5, None),
    (MIXED, 0, None),
    (MIXED, 1, Some(6)),
];

fn register_of(alloc: Global, text: &[u8], variable: u32) -> Result<Option<u8>, Fail> {
    let probe = probe_of(alloc, text)?;
    Ok(place_frame(alloc, &probe)?.register_of(variable))
}

#[test]
fn the_first_four_numbers_have_registers(rt: HostRuntime) -> Result<(), Fail> {
    let alloc = rt.alloc();
    for (number, row) in REGISTERS.iter().enumerate() {
        assert!(rt; register_of(alloc, row.0, row.1)? == row.2, "row {number}");
    }
    Ok(())
}
