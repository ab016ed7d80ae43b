// The machine on programs that are handed back.
use bpf_encode::decode::decode;
use bpf_encode::program::Program;
use bpf_interp::code::Code;
use bpf_interp::helper_calls::{HelperCalls, HelperFault};
use bpf_interp::machine::Machine;
use bpf_interp::regions::Regions;
use bt_core::items::Items;
use bt_core::limits::CODE_SLOTS;
use std::alloc::Global;
use std::test::Fail;

/// A port that answers 0 to every call, as where an update is done.
#[derive(Drop)]
struct Done;

impl HelperCalls for Done {
    ghost use Rattle.std.specs.Prelude.{[]};
    ghost use Rattle.bt_core.specs.Interaction.{Ended};
    ghost use Rattle.bpf_insn.specs.Machine.{Gave};

    type Home = ();

    ghost steps = { λ _. [] };

    ghost helper = { λ _ number _ spaces. Ended (Gave 0 spaces.frame) };

    ghost fixed = { λ _. record { setting = record { actor = 0; actors = 1; ticks = 0; maps = [] }; home = tt } };

    #[tactic(auto, using(bt_core::proofs::InteractionLaws::composing))]
    fn call(
        &mut self,
        _alloc: Global,
        _number: u32,
        _args: [u64; 5],
        _memory: &mut Regions,
    ) -> Result<u64, HelperFault> {
        Ok(0)
    }
}

/// How many instructions a program takes at an event with this value.
pub fn instructions_of(alloc: Global, program: &Program, value: i64) -> Result<u64, Fail> {
    let bytes = program.bytes.as_slice();
    let code = decode(alloc, &bytes[..bytes.len().min(32_768)])?;
    if code.is_empty() || code.len() as u64 > CODE_SLOTS {
        return Err(Fail::from("no code"));
    }
    let mut payload = [7, 0, 0, 0, 0, 0, 0, 0, 0, 0, 0, 0, 0, 0, 0, 0];
    payload[8..].copy_from_slice(&value.to_le_bytes());
    let code = Code::of(alloc, Items::of(code))?;
    let ended = Machine::run(alloc, &code, &[0; 128], &payload, &mut Done, program.fuel)?;
    Ok(ended.instructions)
}
