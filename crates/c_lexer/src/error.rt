// What a text that has no tokens is answered with.
use std::alloc::{AllocError, AllocFailed};
use thiserror::Error;

/// What stands at a place where neither a token nor space nor a complete comment starts.
#[derive(Clone, Copy, Debug, PartialEq, Eq, Drop)]
pub enum LexFaultKind {
    /// A byte with which nothing begins.
    BadByte,
    /// A comment `/*` without its end.
    OpenComment,
    /// A number that is no constant, or that no type of its list represents.
    BadNumber,
    /// A quote with which no character constant begins.
    BadChar,
    /// The text has more than [`TEXT_LIMIT`] bytes.
    TooLong,
}

impl LexFaultKind {
    ghost use Rattle.std.specs.Prelude.{◌≡◌, codes};
    ghost use Rattle.c_lexer.specs.Faults.{fault_number, fault_name};

    /// The number of the kind, from 1 on.
    pub fn number(self) -> u8
        ensures { result ≡ fault_number self }
    {
        match self {
            LexFaultKind::BadByte => 1,
            LexFaultKind::OpenComment => 2,
            LexFaultKind::BadNumber => 3,
            LexFaultKind::BadChar => 4,
            LexFaultKind::TooLong => 5,
        }
    }

    /// The name of the kind, as reports spell it.
    pub fn name(self) -> &'static str
        ensures { result.now ≡ fault_name self }
    {
        match self {
            LexFaultKind::BadByte => "BadByte",
            LexFaultKind::OpenComment => "OpenComment",
            LexFaultKind::BadNumber => "BadNumber",
            LexFaultKind::BadChar => "BadChar",
            LexFaultKind::TooLong => "TooLong",
        }
    }
}

/// The first fault of a text, with its place.
#[derive(Clone, Copy, Debug, PartialEq, Eq, Drop)]
pub struct LexFault {
    pub kind: LexFaultKind,
    /// The place of the first byte of what is no token.
    pub at: u32,
}

/// Why a text has no list of tokens.
#[derive(Clone, Copy, Debug, PartialEq, Eq, Drop, Error)]
pub enum LexError {
    #[error("out of memory")]
    Memory,
    #[error("the text has a fault")]
    Fault(LexFault),
}

impl From<AllocError> for LexError {
    ghost use Rattle.std.specs.Prelude.{◌≡◌};
    ghost use Rattle.c_lexer.specs.declared.error.LexError.TheVariants.{Memory};

    ghost from_gives = { λ _ e. e ≡ Memory };

    fn from(_: AllocError) -> Self {
        LexError::Memory
    }
}

impl<T: Drop> From<AllocFailed<T>> for LexError {
    ghost use Rattle.std.specs.Prelude.{◌≡◌};
    ghost use Rattle.c_lexer.specs.declared.error.LexError.TheVariants.{Memory};

    ghost from_gives = { λ _ e. e ≡ Memory };

    fn from(_: AllocFailed<T>) -> Self {
        LexError::Memory
    }
}
