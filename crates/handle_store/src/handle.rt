// The handle, by which the slave speaks of a value that it never sees.
use std::marker::Model;

/// The name of a value that the monitor keeps. Contracts see it as its number. It comes from
/// `Names::next` or `Store::add` alone.
#[derive(Clone, Copy)]
pub struct Handle {
    number: u64,
}

impl Model for Handle {
    ghost use Rattle.std.specs.Prelude.{ℕ};

    ghost Value = { ℕ };

    ghost view = { λ h. h.number };

    ghost inverse = { λ n. record { number = n } };
}

impl Handle {
    ghost use Rattle.std.specs.Prelude.{◌≡◌};

    pub(crate) fn of(number: u64) -> Handle
        ensures { result ≡ number }
    {
        Handle { number }
    }

    /// Its place in the order in which handles are given, from 0.
    pub fn number(&self) -> u64
        ensures { result ≡ self.now }
    {
        self.number
    }
}
