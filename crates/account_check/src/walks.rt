// Bodies by the walk of their trees.
ghost use Rattle.std.specs.Prelude.{◌<◌, ℕ};
ghost use Rattle.typed_tree.specs.declared.script.Typed.{Typed};
ghost use Rattle.actor_plan.specs.Plans.{TakesFew};
ghost use Rattle.bt_meaning.specs.Walks.{walking};

use actor_plan::bodies::Bodies;
use bt_core::memory::Memory;
use bt_core::port::Port;
use bt_walk::body::walk_body;
use event_record::contexts::ContextBytes;
use std::alloc::Global;
use typed_tree::script::Typed;

/// Runs the bodies of a script for one actor, below so many, by walking their trees. A walk executes no instructions.
#[derive(Drop)]
pub struct Walks<'a> {
    script: &'a Typed,
    actor: u32,
    actors: u32,
    ghost below: { actor < actors },
}

impl Bodies for Walks<'_> {
    ghost use Rattle.account_check.specs.Plans.{plan_of};

    ghost plan = { plan_of };

    fn run<P: Port>(
        &mut self,
        alloc: Global,
        body: u32,
        context: &ContextBytes,
        payload: &[u8],
        port: &mut P,
    ) -> Result<u64, Memory> {
        match self.script.bodies.get(body as usize) {
            None => Ok(0),
            Some(body) => {
                let seen = context.context();
                walk_body(alloc, body, &seen, payload, self.actor, self.actors, port)?;
                Ok(0)
            }
        }
    }
}

impl<'a> Walks<'a> {
    ghost use Rattle.std.specs.Prelude.{◌≡◌};
    ghost use Rattle.bt_meaning.specs.Walks.{walking};
    ghost use Rattle.account_check.specs.Plans.{plan_of};

    /// The walks of a script's bodies, for one actor.
    pub fn new(script: &'a Typed, actor: u32, actors: u32) -> Walks<'a>
        requires { actor < actors }
        ensures { plan_of result ≡ walking script.now actors actor }
    {
        Walks {
            script,
            actor,
            actors,
        }
    }
}

/// Whatever is replied, the walk of a body takes no more instructions than a run may: it executes none.
pub fn walks_take_few()
    ensures { (script : Typed) (actors actor : ℕ) → TakesFew (walking script actors actor) }
{}
