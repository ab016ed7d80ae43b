// Codes without calls that are accepted or refused.
use bpf_check::check::{CodeFault, check_code};
use bpf_encode::decode::DecodeError;
use bt_core::items::Items;
use std::test::Fail;
use typed_tree::script::Typed;

const S2: Result<u64, CodeFault> = Err(CodeFault::S2);

// Each answer of accepted code is 4,097 times its slots. A gate is `ldxdw r1, [r10-8]`,
// `jge r1, 4096, ..`, `add64 r1, 1`, `stxdw [r10-8], r1`.
#[test]
fn codes_are_accepted_or_refused(rt: HostRuntime) -> Result<(), Fail> {
    let typed = Typed {
        maps: Items::new(rt.alloc()),
        formats: Items::new(rt.alloc()),
        bodies: Items::new(rt.alloc()),
        uses_exit: false,
    };
    let rows: [(&[u8], u32, Result<u64, CodeFault>, &str); 16] = [
        (b"\x95\0\0\0\0\0\0\0", 0, Ok(4097), "an exit"),
        (b"\x05\0\xff\xff\0\0\0\0", 0, S2, "a jump to itself"),
        (
            b"\x79\x10\x78\0\0\0\0\0\x95\0\0\0\0\0\0\0",
            0,
            Ok(8194),
            "a load of the context's last eight bytes",
        ),
        (
            b"\x79\x10\x80\0\0\0\0\0\x95\0\0\0\0\0\0\0",
            0,
            S2,
            "a load behind the context",
        ),
        (
            b"\xbf\x31\0\0\0\0\0\0\x95\0\0\0\0\0\0\0",
            0,
            S2,
            "a read of R3, which is unset",
        ),
        (
            b"\x79\xa1\xf8\xff\0\0\0\0\x35\x01\x03\0\0\x10\0\0\
\x07\x01\0\0\x01\0\0\0\x7b\x1a\xf8\xff\0\0\0\0\
\x05\0\xfb\xff\0\0\0\0\x95\0\0\0\0\0\0\0",
            0,
            Ok(24582),
            "a loop that a gate bounds",
        ),
        (
            b"\x79\xa1\xf8\xff\0\0\0\0\x35\x01\x01\0\0\x10\0\0\
\x07\x01\0\0\x01\0\0\0\x7b\x1a\xf8\xff\0\0\0\0\
\x05\0\xfb\xff\0\0\0\0\x95\0\0\0\0\0\0\0",
            0,
            S2,
            "a gate whose jump leads inside it",
        ),
        (
            b"\x79\xa1\xf8\xff\0\0\0\0\x35\x01\x04\0\0\x10\0\0\
\x07\x01\0\0\x01\0\0\0\x7b\x1a\xf8\xff\0\0\0\0\
\x05\0\xff\xff\0\0\0\0\x05\0\xfa\xff\0\0\0\0\x95\0\0\0\0\0\0\0",
            0,
            S2,
            "a jump back that no gate pays for",
        ),
        (
            b"\xbf\xa6\0\0\0\0\0\0\x79\xa1\xf8\xff\0\0\0\0\x35\x01\x04\0\0\x10\0\0\
\x07\x01\0\0\x01\0\0\0\x7b\x1a\xf8\xff\0\0\0\0\
\xb7\x06\0\0\0\0\0\0\x05\0\xfa\xff\0\0\0\0\x79\x60\xf0\xff\0\0\0\0\x95\0\0\0\0\0\0\0",
            0,
            S2,
            "a base that is an address at first and a number later",
        ),
        (
            b"\x79\x20\x08\0\0\0\0\0\x95\0\0\0\0\0\0\0",
            16,
            Ok(8194),
            "a load of a payload's last eight bytes",
        ),
        (
            b"\x79\x20\x08\0\0\0\0\0\x95\0\0\0\0\0\0\0",
            15,
            S2,
            "a payload that is a byte too short",
        ),
        (
            b"\x7a\x0a\xf8\xff\0\0\0\0\x95\0\0\0\0\0\0\0",
            0,
            S2,
            "a store to the count of turns",
        ),
        (
            b"\x7a\x0a\xf0\xff\0\0\0\0\x95\0\0\0\0\0\0\0",
            0,
            Ok(8194),
            "a store before the count of turns",
        ),
        (
            b"\xb7\0\0\0\0\0\0\0",
            0,
            S2,
            "code that ends without an exit",
        ),
        (
            b"\x95\0\0\0\0\0\0",
            0,
            Err(CodeFault::S1(DecodeError::BadLength)),
            "seven bytes",
        ),
        (b"", 0, S2, "no bytes"),
    ];
    for (bytes, payload, answer, name) in rows {
        assert!(rt; bytes.len() <= 80);
        assert_eq!(rt;
            check_code(rt.alloc(), bytes, &typed, payload),
            answer,
            "{name}"
        );
    }
    Ok(())
}
