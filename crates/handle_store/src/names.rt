// The handles that are given in order, without the values that they stand for.
use crate::Handle;
use std::marker::Model;

/// Gives the handles 0, 1, 2 and so on. Contracts see it as how many were given.
#[derive(Drop)]
pub struct Names {
    given: u64,
}

impl Model for Names {
    ghost use Rattle.std.specs.Prelude.{ℕ};

    ghost Value = { ℕ };

    ghost view = { λ n. n.given };

    ghost inverse = { λ n. record { given = n } };
}

impl Names {
    ghost use Rattle.std.specs.Prelude.{◌≡◌, ◌+◌, ◌^◌, ◌<◌};

    /// No handle was given.
    pub fn new() -> Names
        ensures { result ≡ 0 }
    {
        Names { given: 0 }
    }

    /// Gives the next handle.
    pub fn next(&mut self) -> Handle
        requires { self.old < 2 ^ 63 }
        ensures handle { result ≡ self.old }
        ensures given { self.new ≡ self.old + 1 }
    {
        let handle = Handle::of(self.given);
        self.given += 1;
        handle
    }

    /// How many handles were given, which is the number of the next one.
    pub fn count(&self) -> u64
        ensures { result ≡ self.now }
    {
        self.given
    }
}
