// The fault of a text whose tokens are no program, with its place in bytes.
ghost use Rattle.std.specs.Prelude.{◌≡◌, ◌≤◌, length, slice_get};
ghost use Rattle.c_lexer.specs.declared.TheConstants.{TEXT_LIMIT};
ghost use Rattle.front_end.specs.Reading.{place_of};

use c_lexer::Token;

/// Why the tokens of a text are no program.
#[derive(Clone, Copy, Debug, PartialEq, Eq)]
pub enum ParseFaultKind {
    /// A token, or the end, that can't stand where it does.
    FaultAt,
    /// The nesting would first go too deep there.
    TooDeep,
}

impl ParseFaultKind {
    ghost use Rattle.std.specs.Prelude.{◌≡◌};
    ghost use Rattle.front_end.specs.ParseFaults.{fault_number, fault_name};

    /// The number of the kind, from 1 on.
    pub fn number(self) -> u8
        ensures { result ≡ fault_number self }
    {
        match self {
            ParseFaultKind::FaultAt => 1,
            ParseFaultKind::TooDeep => 2,
        }
    }

    /// The name of the kind, as reports spell it.
    pub fn name(self) -> &'static str
        ensures { result.now ≡ fault_name self }
    {
        match self {
            ParseFaultKind::FaultAt => "FaultAt",
            ParseFaultKind::TooDeep => "TooDeep",
        }
    }
}

/// The first fault of a text whose tokens are no program.
#[derive(Clone, Copy, Debug, PartialEq, Eq)]
pub struct ParseFault {
    pub kind: ParseFaultKind,
    /// The place of the token's first byte; for the end the length of the text.
    pub at: u32,
}

/// Where the token of this number begins in the text, or the text's length where there is none.
pub(crate) fn place(text: &[u8], tokens: &[Token], number: u32) -> u32
    requires { length text.now ≤ TEXT_LIMIT }
    ensures { result ≡ place_of text.now (slice_get tokens.now number) }
{
    match tokens.get(number as usize) {
        Some(token) => token.span.from,
        None => text.len() as u32,
    }
}
