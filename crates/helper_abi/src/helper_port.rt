// The port of helpers.
ghost use Rattle.std.specs.Prelude.{◌≡◌, Err, None};
ghost use Rattle.bpf_interp.specs.Running.{Called};
ghost use Rattle.bpf_interp.specs.declared.helper_calls.HelperFault.TheVariants.{Helper as BadArgument};
ghost use Rattle.helper_abi.specs.Helpers.{helpers, helper_steps};
ghost use Rattle.helper_abi.specs.Numbers.{helper_at};
ghost use Rattle.helper_abi.specs.Served.{IsFor, desk_of};

use crate::helper::Helper;
use crate::helpers::{
    aggregate, cut, delete, exit, get, print, printf, read_agg, read_str, set, sweep_map,
};
use bpf_interp::helper_calls::{HelperCalls, HelperFault};
use bpf_interp::regions::Regions;
use bt_core::port::Port;
use map_ops::sweep::Sweep;
use std::alloc::Global;
use typed_tree::script::Typed;

/// Performs helpers as steps through a port, which serves the maps of a typed script for an actor, which
/// is below the number of actors.
#[derive(Drop)]
pub struct HelperPort<'a, 'b, P: Port> {
    pub port: &'a mut P,
    pub typed: &'b Typed,
    pub actor: u32,
    pub actors: u32,
    pub ghost served: { IsFor typed.now.maps actor actors (P.fixed port.now).setting },
}

impl<'a, 'b, P: Port> HelperPort<'a, 'b, P> {
    /// The helpers of a script over a port that serves its maps.
    pub fn new(port: &'a mut P, typed: &'b Typed, actor: u32, actors: u32) -> HelperPort<'a, 'b, P>
        requires { IsFor typed.now.maps actor actors (P.fixed port.now).setting }
        ensures port { result.port ≡ port.entry }
        ensures typed { result.typed ≡ typed.entry }
        ensures actor { result.actor ≡ actor }
        ensures actors { result.actors ≡ actors }
    {
        HelperPort {
            port,
            typed,
            actor,
            actors,
        }
    }
}

// What a helper does.
fn act<P: Port>(
    alloc: Global,
    port: &mut P,
    typed: &Typed,
    actor: u32,
    actors: u32,
    helper: Helper,
    args: (u64, u64, u64),
    memory: &mut Regions,
) -> Result<u64, HelperFault>
    requires { IsFor typed.now.maps actor actors (P.fixed port.old).setting }
    ensures called { let d = desk_of typed.now actor actors in
        Called (helper_steps d helper args.0 args.1 args.2 memory.old) (P.steps port.old) (P.steps port.new) result memory.new.frame }
    ensures kept { P.fixed port.new ≡ P.fixed port.old }
    ensures context { memory.new.context ≡ memory.old.context }
    ensures payload { memory.new.payload ≡ memory.old.payload }
{
    let (a, b, c) = args;
    let maps = typed.maps.as_slice();
    match helper {
        Helper::Get => get(alloc, port, maps, a, b, c, memory),
        Helper::Set => set(alloc, port, maps, a, b, c, memory),
        Helper::Delete => delete(alloc, port, maps, a, b, memory),
        Helper::Aggregate => aggregate(alloc, port, maps, actor, a, b, c, memory),
        Helper::Print => print(alloc, port, maps, actors, a, b, c, memory),
        Helper::Clear => sweep_map(alloc, port, maps, actors, Sweep::Clear, a, memory),
        Helper::Zero => sweep_map(alloc, port, maps, actors, Sweep::Zero, a, memory),
        Helper::Printf => printf(alloc, port, typed.formats.as_slice(), a, b, memory),
        Helper::Exit => exit(alloc, port, memory),
        Helper::Cut => cut(alloc, port, a, memory),
        Helper::ReadStr => read_str(a, b, c, memory),
        Helper::ReadAgg => read_agg(alloc, port, maps, actors, a, b, c, memory),
    }
}

// The helper of a number.
fn perform<P: Port>(
    alloc: Global,
    port: &mut P,
    typed: &Typed,
    actor: u32,
    actors: u32,
    number: u32,
    args: [u64; 5],
    memory: &mut Regions,
) -> Result<u64, HelperFault>
    requires { IsFor typed.now.maps actor actors (P.fixed port.old).setting }
    ensures called { Called (helpers (desk_of typed.now actor actors) number args memory.old) (P.steps port.old) (P.steps port.new) result memory.new.frame }
    ensures argument { helper_at number ≡ None → result ≡ Err BadArgument }
    ensures kept { P.fixed port.new ≡ P.fixed port.old }
    ensures context { memory.new.context ≡ memory.old.context }
    ensures payload { memory.new.payload ≡ memory.old.payload }
{
    let Some(helper) = Helper::at(number) else {
        return Err(HelperFault::Helper);
    };
    let args = (args[0], args[1], args[2]);
    act(alloc, port, typed, actor, actors, helper, args, memory)
}

impl<'a, 'b, P: Port> HelperCalls for HelperPort<'a, 'b, P> {
    ghost use Rattle.std.specs.Prelude.{[], ◌∷◌};
    ghost use Rattle.helper_abi.specs.Helpers.{helpers};
    ghost use Rattle.helper_abi.specs.Served.{desk_of};

    type Home = P::Home;

    ghost steps = { λ s. P.steps s.port.now };

    ghost helper = { λ s. helpers (desk_of s.typed.now s.actor s.actors) };

    ghost fixed = { λ s. P.fixed s.port.now };

    ghost held = { λ s. s.port.ghost_name ∷ [] };

    fn call(
        &mut self,
        alloc: Global,
        number: u32,
        args: [u64; 5],
        memory: &mut Regions,
    ) -> Result<u64, HelperFault> {
        perform(
            alloc,
            self.port,
            self.typed,
            self.actor,
            self.actors,
            number,
            args,
            memory,
        )
    }
}
