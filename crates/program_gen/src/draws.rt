// Numbers drawn one after another.
use std::marker::Model;

const FACTOR: u64 = 1103515245;

const INCREMENT: u64 = 12345;

const MODULUS: u64 = 1 << 31;

/// What numbers are drawn from: each that is drawn moves its state.
#[derive(Drop)]
pub(crate) struct Draws {
    state: u32,
}

impl Model for Draws {
    ghost use Rattle.std.specs.Prelude.{ℕ};

    ghost Value = { ℕ };

    ghost view = { λ d. d.state };
}

impl Draws {
    ghost use Rattle.std.specs.Prelude.{◌≡◌};
    ghost use Rattle.program_gen.specs.Draws.{moved, shown};

    /// Nothing was drawn yet.
    pub(crate) fn new(seed: u32) -> Draws
        ensures { result ≡ seed }
    {
        Draws { state: seed }
    }

    /// The next number.
    pub(crate) fn draw(&mut self) -> u32
        ensures moves { self.new ≡ moved self.old }
        ensures draws { result ≡ shown self.new }
    {
        let state = (u64::from(self.state) * FACTOR + INCREMENT) % MODULUS;
        self.state = state as u32;
        self.state / 65536
    }
}
