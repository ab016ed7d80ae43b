// Bodies by their code.
ghost use Rattle.std.specs.Prelude.{◌≡◌, ◌<◌};
ghost use Rattle.std.specs.List.{AllByRecursion};
ghost use Rattle.code_runs.specs.CodeFacts.{codes_prop};
ghost use Rattle.code_runs.specs.Coding.{CanRunCode};

use crate::run_body::run_body;
use actor_plan::bodies::Bodies;
use bpf_interp::code::Code;
use bt_core::memory::Memory;
use bt_core::port::Port;
use event_record::contexts::ContextBytes;
use std::alloc::Global;
use typed_tree::script::Typed;

/// Runs the bodies of a script for one actor, below so many, by their code. Each code is well formed, and has at least one and at most
/// 4,096 slots.
#[derive(Drop)]
pub struct CodeBodies<'a> {
    script: &'a Typed,
    codes: &'a [Code],
    actor: u32,
    actors: u32,
    ghost below: { actor < actors },
    ghost can_run: { AllByRecursion CanRunCode codes.now } by { codes_prop codes.now },
}

impl Bodies for CodeBodies<'_> {
    ghost use Rattle.code_runs.specs.Running.{plan_of};

    ghost plan = { plan_of };

    fn run<P: Port>(
        &mut self,
        alloc: Global,
        body: u32,
        context: &ContextBytes,
        payload: &[u8],
        port: &mut P,
    ) -> Result<u64, Memory> {
        match self.codes.get(body as usize) {
            None => Ok(0),
            Some(code) => {
                let _length = context.payload_len();
                run_body(
                    alloc,
                    self.script,
                    code,
                    context,
                    payload,
                    self.actor,
                    self.actors,
                    port,
                )
            }
        }
    }
}

impl<'a> CodeBodies<'a> {
    ghost use Rattle.code_runs.specs.Coding.{coding};
    ghost use Rattle.code_runs.specs.Running.{plan_of};

    /// The bodies of a script by their codes, for one actor.
    pub fn new(script: &'a Typed, codes: &'a [Code], actor: u32, actors: u32) -> CodeBodies<'a>
        requires below { actor < actors }
        requires can_run { AllByRecursion CanRunCode codes.now }
        ensures { plan_of result ≡ coding script.now codes.now actors actor }
    {
        CodeBodies {
            script,
            codes,
            actor,
            actors,
        }
    }
}
