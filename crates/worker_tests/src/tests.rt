// Two workers over one script, of which the bodies of one run out of memory.
use crate::runs::{Did, Made, Trial, make};
use crate::script::new_scripted;
use crate::told::told;
use crate::workers::Order;
use actor_plan::outcome::Outcome;
use std::test::Fail;

/// What a CPU does at each of its two events: what it sets the shared map to, what it adds at its own table, and that it prints.
const AT_EVENT: [(&str, i64); 3] = [("set", 7), ("add", 1), ("print", 0)];

/// How a worker ends whose bodies have all the memory that they ask for. A walk executes no instructions.
const WELL: Option<Outcome> = Some(Outcome {
    to_end: true,
    instructions: 0,
});

/// How a worker ends whose bodies run out of memory: with no outcome.
const WANT: Option<Outcome> = None;

/// Whether a worker was run, and ended so.
fn ended(did: &Did, end: Option<Outcome>) -> bool {
    match did.ended {
        Some(Ok(outcome)) => Some(outcome) == end,
        Some(Err(_)) => end.is_none(),
        None => false,
    }
}

/// Whether a worker made so many steps, and they are those of its CPU's events, from the first one on. A CPU prints its own number.
fn made_first(did: &Did, cpu: u32, count: usize) -> bool {
    let steps = did.steps.as_slice();
    if steps.len() != count {
        return false;
    }
    for place in 0..steps.len() {
        let (name, number) = AT_EVENT[place % 3];
        let number = if name == "print" { cpu as i64 } else { number };
        if told(&steps[place]) != Some((cpu, name, number)) {
            return false;
        }
    }
    true
}

/// At which run the bodies of each CPU run out of memory, 0 for never; how the worker of each ends; and how many steps it makes.
type Row = ((u32, u32), [Option<Outcome>; 2], [usize; 2]);

const ROWS: [Row; 5] = [
    ((0, 0), [WELL, WELL], [6, 6]),
    ((1, 0), [WANT, WELL], [0, 6]),
    ((2, 0), [WANT, WELL], [3, 6]),
    ((0, 1), [WELL, WANT], [6, 0]),
    ((0, 2), [WELL, WANT], [6, 3]),
];

/// Whether both workers ended so and made so many steps, and all parts and the tables of all actors were given back.
fn is_made(made: &Made, ends: &[Option<Outcome>; 2], steps: &[usize; 2]) -> bool {
    ended(&made.first, ends[0])
        && ended(&made.second, ends[1])
        && made_first(&made.first, 0, steps[0])
        && made_first(&made.second, 1, steps[1])
        && made.closed == (8, 3)
}

#[test]
fn want_of_memory_stops_one_worker_alone(rt: HostRuntime) -> Result<(), Fail> {
    let alloc = rt.alloc();
    let scripted = new_scripted(alloc)?;
    for (fails_at, ends, steps) in &ROWS {
        for order in [Order::FirstBefore, Order::SecondBefore, Order::Beside] {
            let trial = Trial {
                fails_at: *fails_at,
                order,
            };
            let made = make(&rt, alloc, &scripted, trial)?;
            assert!(rt; is_made(&made, ends, steps), "{trial:?}");
        }
    }
    Ok(())
}
