ghost use Rattle.std.specs.Prelude.{◌≡◌, ◌<◌, ◌^◌};
ghost use Rattle.gr_gen.specs.Draws.{next_state, drawn_from};

/// The draws of a seed, one after another.
#[derive(Drop)]
pub struct Draws {
    pub state: u64,
}

impl Draws {
    /// The draws of a seed, from the first on.
    pub fn new(seed: u32) -> Draws
        ensures { result.state ≡ seed }
    {
        Draws {
            state: u64::from(seed),
        }
    }

    /// The next draw.
    pub fn draw(&mut self) -> u32
        ensures state { self.new.state ≡ next_state self.old.state }
        ensures draw { result ≡ drawn_from self.new.state }
    {
        const MULTIPLIER: u64 = 6364136223846793005;
        const INCREMENT: u64 = 1442695040888963407;
        self.state = self.state.wrapping_mul(MULTIPLIER).wrapping_add(INCREMENT);
        (self.state >> 33) as u32
    }
}
