// Numbers drawn from a seed.
ghost use Rattle.std.specs.Prelude.{◌≡◌, ◌<◌, ◌^◌};
ghost use Rattle.rec_gen.specs.Draws.{next_state, drawn_at, state_after};

/// A linear congruential generator, the one that the C standard shows for `rand`, with its whole upper part as the number.
#[derive(Drop)]
pub struct Draws {
    state: u32,
    ghost small: { state < 2 ^ 31 },
}

/// What is drawn for one event.
#[derive(Clone, Copy, Drop)]
pub struct Drawn {
    pub name: u32,
    pub thread: u32,
    pub id: u32,
}

impl Draws {
    ghost use Rattle.std.specs.Prelude.{◌≡◌, ◌<◌, ◌^◌, ◌/◌};
    ghost use Rattle.rec_gen.specs.Draws.{next_state};

    /// A generator in this state.
    pub fn new(seed: u32) -> Draws
        requires { seed < 2 ^ 31 }
        ensures { result.state ≡ seed }
    {
        Draws { state: seed }
    }

    /// The next number, below 32,768.
    fn draw(&mut self) -> u32
        ensures state { self.new.state ≡ next_state self.old.state }
        ensures number { result ≡ self.new.state / 65536 }
    {
        self.state = ((1_103_515_245 * self.state as u64 + 12_345) % (1 << 31)) as u32;
        self.state / 65_536
    }

    /// What is drawn for the next event.
    pub fn for_event(&mut self) -> Drawn
        ensures state { self.new.state ≡ next_state (next_state (next_state self.old.state)) }
        ensures name { result.name ≡ next_state self.old.state / 65536 }
        ensures thread { result.thread ≡ next_state (next_state self.old.state) / 65536 }
        ensures id { result.id ≡ next_state (next_state (next_state self.old.state)) / 65536 }
    {
        let name = self.draw();
        let thread = self.draw();
        let id = self.draw();
        Drawn { name, thread, id }
    }
}
