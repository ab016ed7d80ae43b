// Bodies that run out of memory.
use actor_plan::bodies::Bodies;
use bt_core::memory::Memory;
use bt_core::port::Port;
use event_record::contexts::ContextBytes;
use std::alloc::{AllocError, Global};

/// Bodies of which one run, counted from 1, runs out of memory before it makes a step. With 0 none does.
#[derive(Drop)]
pub struct Failing<B> {
    pub bodies: B,
    pub fails_at: u32,
    pub runs: u32,
}

impl<B: Bodies> Bodies for Failing<B> {
    ghost plan = { λ failing. B.plan failing.bodies };

    #[tactic(auto, using(bt_core::proofs::InteractionLaws::composing))]
    fn run<P: Port>(
        &mut self,
        alloc: Global,
        body: u32,
        context: &ContextBytes,
        payload: &[u8],
        port: &mut P,
    ) -> Result<u64, Memory> {
        self.runs = self.runs.saturating_add(1);
        if self.runs == self.fails_at {
            return Err(AllocError.into());
        }
        self.bodies.run(alloc, body, context, payload, port)
    }
}
