// Runs of code, over a port that shows registers and the frame.
ghost use Rattle.std.specs.Prelude.{◌≡◌};

use anyhow::{Context, Result, bail};
use bpf_encode::decode::decode;
use bpf_interp::Trap;
use bpf_interp::code::Code;
use bpf_interp::helper_calls::{HelperCalls, HelperFault};
use bpf_interp::machine::{Ended, Machine};
use bpf_interp::regions::Regions;
use bt_core::items::Items;
use std::alloc::Global;

/// A port that answers 0 to every call, and keeps R1 to R5 of the last two calls, the number of the last one and the last
/// 32 bytes of the frame.
#[derive(Drop)]
struct Watcher {
    earlier: [u64; 5],
    last: [u64; 5],
    number: u32,
    stack: [u8; 32],
}

impl HelperCalls for Watcher {
    ghost use Rattle.std.specs.Prelude.{[]};
    ghost use Rattle.bt_core.specs.Interaction.{Ended};
    ghost use Rattle.bpf_insn.specs.Machine.{Gave};

    type Home = ();

    ghost steps = { λ _. [] };

    ghost helper = { λ _ number _ spaces. Ended (Gave 0 spaces.frame) };

    ghost fixed = { λ _. record { setting = record { actor = 0; actors = 1; ticks = 0; maps = [] }; home = tt } };

    #[tactic(auto, using(bt_core::proofs::InteractionLaws::composing))]
    fn call(
        &mut self,
        _alloc: Global,
        number: u32,
        args: [u64; 5],
        memory: &mut Regions,
    ) -> Result<u64, HelperFault> {
        self.earlier = self.last;
        self.last = args;
        self.number = number;
        if let Some(bytes) = memory.bytes(0x3_0000_01e0, 32) {
            self.stack.copy_from_slice(bytes);
        }
        Ok(0)
    }
}

/// Code over a port that has seen nothing, and how its run ends.
fn watched(alloc: Global, digits: &str, fuel: u64) -> Result<(Watcher, Result<Ended, Trap>)> {
    let bytes = hex::decode(alloc, digits)?;
    if bytes.len() > 10_000 {
        bail!("too long");
    }
    let code = decode(alloc, bytes.as_slice())?;
    if code.is_empty() || code.len() > 10_000 {
        bail!("no code");
    }
    let mut watcher = Watcher {
        earlier: [0; 5],
        last: [0; 5],
        number: 0,
        stack: [0; 32],
    };
    let code = Code::of(alloc, Items::of(code))?;
    let end = Machine::run(alloc, &code, &[0; 128], &[7, 0], &mut watcher, fuel);
    Ok((watcher, end))
}

/// Tells what the last two calls showed.
fn tell_calls<R: Print + AllocGlobal>(rt: &R, watcher: &Watcher) -> Result<()> {
    let [a, b, c, d, e] = watcher.earlier;
    println!(rt; "    {a:x} {b:x} {c:x} {d:x} {e:x}")?;
    let number = watcher.number;
    let [a, b, c, d, e] = watcher.last;
    let stack = hex::encode(rt.alloc(), watcher.stack)?;
    println!(rt; "    {number}: {a:x} {b:x} {c:x} {d:x} {e:x} {stack}")?;
    Ok(())
}

/// Tells how the code of a line `NAME = FUEL CODE` runs, the fuel in decimals and the code in hexadecimal digits: whether it
/// takes all its fuel, or why it stops, and what its last two calls showed.
pub(crate) fn tell_run<R: Print + AllocGlobal>(rt: &R, line: &str) -> Result<()> {
    let (name, words) = line.split_once(" = ").context("no run")?;
    let (fuel, digits) = words.split_once(" ").context("no code")?;
    let fuel = fuel.parse::<u64>()?;
    let (watcher, end) = watched(rt.alloc(), digits, fuel)?;
    match end {
        Ok(ended) => {
            let all = ended.instructions == fuel;
            println!(rt; "{name}: all fuel {all}")?;
        }
        Err(trap) => println!(rt; "{name}: {trap}")?,
    }
    tell_calls(rt, &watcher)
}
