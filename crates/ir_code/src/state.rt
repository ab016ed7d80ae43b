// What a run of typed instructions keeps.
ghost use Rattle.std.specs.Prelude.{◌≡◌};
ghost use Rattle.map_ops.specs.Values.{shape_of};

use bt_core::ending::Ending;
use bt_core::items::Items;
use bt_core::map::Shape;
use bt_core::value::Value;

/// What a run keeps: the variables by their numbers, how many loop turns are left, and the values on the stack, the first one
/// put first.
pub struct State {
    pub variables: Items<Value>,
    pub turns: u32,
    pub stack: Items<Value>,
}

// Written out, so that it is one call wherever such a value is let go.
impl Drop for State {
    fn drop(self) {
        let Self {
            variables: _,
            turns: _,
            stack: _,
        } = self;
    }
}

/// Where an exit leads: to a block by its number, or to the end of the run.
#[derive(Clone, Copy)]
pub enum Way {
    To(usize),
    Ends(Ending),
}

/// The type of a value.
pub fn shape_of(value: &Value) -> Shape
    ensures { result ≡ shape_of value.now }
{
    match value {
        Value::Int(_) => Shape::Int,
        Value::Str(_) => Shape::Str,
    }
}
