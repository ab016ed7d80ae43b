// Limits of runs.
ghost use Rattle.std.specs.Prelude.{◌≡◌};
ghost use Rattle.actor_plan.specs.declared.limits.TheConstants.{RUN_INSTRUCTIONS};

/// Instructions that one run of a body may take: the fuel of the longest program.
pub const RUN_INSTRUCTIONS: u64 = 16_785_408;

/// The limit is 4,096 slots times 4,098 instructions. Nothing runs.
pub fn limits_are()
    ensures run_instructions { RUN_INSTRUCTIONS ≡ 16785408 }
{}
