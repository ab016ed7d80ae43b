// Where statements lead.
ghost use Rattle.std.specs.Prelude.{◌≡◌, Err, MatchResult, Ok};
ghost use Rattle.bt_walk.specs.Flows.{is_next, leaves};
ghost use Rattle.walk_meaning.specs.declared.flow.Flow.TheVariants as flows;
ghost use Rattle.walk_meaning.specs.Walk.{ending_of};

use bt_core::ending::Ending;
use bt_core::memory::Memory;
use walk_meaning::flow::Flow;

/// Whether the next statement follows.
pub fn is_next(flow: Flow) -> bool
    ensures { result ≡ is_next flow }
{
    match flow {
        Flow::Next => true,
        Flow::Break => false,
        Flow::Continue => false,
        Flow::Stop(_) => false,
    }
}

/// How a loop is left whose turn led there, or `None` where it goes on.
pub fn leaves(flow: Flow) -> Option<Flow>
    ensures { result ≡ leaves flow }
{
    match flow {
        Flow::Next => None,
        Flow::Break => Some(Flow::Next),
        Flow::Continue => None,
        Flow::Stop(ending) => Some(Flow::Stop(ending)),
    }
}

/// How the run ends that its statements led to.
pub fn ending_of(flow: Flow) -> Ending
    ensures { result ≡ ending_of flow }
{
    match flow {
        Flow::Next => Ending::End,
        Flow::Break => Ending::End,
        Flow::Continue => Ending::End,
        Flow::Stop(ending) => ending,
    }
}

/// What a statement leads to whose last part was done, or not for want of memory: the next one.
pub fn next_after(done: Result<(), Memory>) -> Result<Flow, Memory>
    ensures { MatchResult done (λ _. result ≡ Ok flows.Next) (λ error. result ≡ Err error) }
{
    match done {
        Ok(()) => Ok(Flow::Next),
        Err(error) => Err(error),
    }
}
