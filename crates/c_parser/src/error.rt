// Why there is no tree.
use std::alloc::{AllocError, AllocFailed};

/// Why there is no tree. A place is a token's number, or the number of tokens for the end.
#[derive(Clone, Copy, Debug, PartialEq, Eq)]
pub enum ParseError {
    /// Want of memory.
    Memory,
    /// The first token that can't stand where it does.
    FaultAt(u32),
    /// Where the nesting would first go deeper than `DEEPEST`.
    TooDeep(u32),
}

impl From<AllocError> for ParseError {
    ghost use Rattle.std.specs.Prelude.{◌≡◌};
    ghost use Rattle.c_parser.specs.declared.error.ParseError.TheVariants.{Memory};

    ghost from_gives = { λ _ e. e ≡ Memory };

    fn from(_: AllocError) -> Self {
        ParseError::Memory
    }
}

impl<T: Drop> From<AllocFailed<T>> for ParseError {
    ghost use Rattle.std.specs.Prelude.{◌≡◌};
    ghost use Rattle.c_parser.specs.declared.error.ParseError.TheVariants.{Memory};

    ghost from_gives = { λ _ e. e ≡ Memory };

    fn from(_: AllocFailed<T>) -> Self {
        ParseError::Memory
    }
}
