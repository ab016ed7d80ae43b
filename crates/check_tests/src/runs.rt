// A run of accepted code, beside the number that was answered.
ghost use Rattle.std.specs.Prelude.{◌≡◌};

use bpf_check::check::check_code;
use bpf_encode::decode::decode;
use bpf_interp::code::Code;
use bpf_interp::helper_calls::{HelperCalls, HelperFault};
use bpf_interp::machine::{Ended, Machine};
use bpf_interp::regions::Regions;
use bt_core::items::Items;
use std::alloc::Global;
use std::test::Fail;
use typed_tree::script::Typed;

/// A port for code that calls nothing.
#[derive(Drop)]
struct NoCalls;

impl HelperCalls for NoCalls {
    ghost use Rattle.std.specs.Prelude.{[]};
    ghost use Rattle.bt_core.specs.Interaction.{Ended};
    ghost use Rattle.bpf_insn.specs.Machine.{BadArgument};

    type Home = ();

    ghost steps = { λ _. [] };

    ghost helper = { λ _ number _ spaces. Ended BadArgument };

    ghost fixed = { λ _. record { setting = record { actor = 0; actors = 1; ticks = 0; maps = [] }; home = tt } };

    #[tactic(auto, using(bt_core::proofs::InteractionLaws::composing))]
    fn call(
        &mut self,
        _alloc: Global,
        _number: u32,
        _args: [u64; 5],
        _memory: &mut Regions,
    ) -> Result<u64, HelperFault> {
        Err(HelperFault::Helper)
    }
}

// `ldxdw r1, [r10-8]`, `jge r1, 4096, +3`, `add64 r1, 1`, `stxdw [r10-8], r1`, `ja -5`, `exit`: 4,096
// turns of five instructions, then the first two and the exit.
const LOOP: &[u8] = b"\x79\xa1\xf8\xff\0\0\0\0\x35\x01\x03\0\0\x10\0\0\
\x07\x01\0\0\x01\0\0\0\x7b\x1a\xf8\xff\0\0\0\0\
\x05\0\xfb\xff\0\0\0\0\x95\0\0\0\0\0\0\0";

#[test]
fn a_loop_ends_within_what_was_answered(rt: HostRuntime) -> Result<(), Fail> {
    let typed = Typed {
        maps: Items::new(rt.alloc()),
        formats: Items::new(rt.alloc()),
        bodies: Items::new(rt.alloc()),
        uses_exit: false,
    };
    let most = check_code(rt.alloc(), LOOP, &typed, 0)?;
    assert_eq!(rt; most, 24582);
    let code = decode(rt.alloc(), LOOP)?;
    assert_eq!(rt; code.len(), 6);
    let code = Code::of(rt.alloc(), Items::of(code))?;
    let ended = Machine::run(rt.alloc(), &code, &[0; 128], &[], &mut NoCalls, most);
    assert_eq!(rt;
        ended,
        Ok(Ended {
            instructions: 20483
        })
    );
    Ok(())
}
