// A port that serves the maps of a script and no others.
ghost use Rattle.std.specs.Prelude.{◌≡◌};
ghost use Rattle.actor_plan.specs.Plans.{AreServed};

use bt_core::items::Items;
use bt_core::map::MapDecl;
use bt_core::memory::Memory;
use bt_core::port::Port;
use bt_core::step::{ObjectId, Op, Reply};
use std::alloc::Global;
use typed_tree::script::Typed;

/// Makes the steps of a script through a port that serves the script's maps under their numbers.
#[derive(Drop)]
pub(crate) struct ScriptPort<'a, 'b, P: Port> {
    pub(crate) port: &'a mut P,
    pub(crate) script: &'b Typed,
    pub(crate) ghost served: { AreServed script.now.maps (P.fixed port.now).setting.maps },
}

impl<'a, 'b, P: Port> ScriptPort<'a, 'b, P> {
    /// The steps of a script through a port.
    pub(crate) fn new(port: &'a mut P, script: &'b Typed) -> ScriptPort<'a, 'b, P>
        requires { AreServed script.now.maps (P.fixed port.now).setting.maps }
        ensures port { result.port ≡ port.entry }
        ensures script { result.script ≡ script.entry }
    {
        ScriptPort { port, script }
    }
}

impl<'a, 'b, P: Port> Port for ScriptPort<'a, 'b, P> {
    ghost use Rattle.code_runs.specs.Serving.{with_maps};

    type Home = (P::Home, Items<MapDecl>, &'a mut ());

    ghost steps = { λ s. P.steps s.port.now };

    ghost fixed = { λ s. record {
      setting = with_maps s.script.now.maps (P.fixed s.port.now).setting;
      home = ((P.fixed s.port.now).home, (P.fixed s.port.now).setting.maps, record { ref_ptr = (0, 0); ghost_name = s.port.ghost_name; now = tt });
    } };

    fn step(&mut self, alloc: Global, object: ObjectId, op: &mut Op) -> Result<(), Memory> {
        self.port.step(alloc, object, op)
    }

    fn last(&self) -> &Reply {
        self.port.last()
    }
}
