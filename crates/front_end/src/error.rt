// Why a text has no typed tree: the faults of the first stage that finds one.
use crate::parse_fault::ParseFault;
use c_lexer::{LexError, LexFault};
use check_declarations::TypeFault;
use check_programs::TypeError;

/// Why a text has no typed tree.
#[derive(Drop)]
pub enum FrontError {
    /// It has no tokens: its first fault.
    Lex(LexFault),
    /// Its tokens are no program: the first fault.
    Parse(ParseFault),
    /// All type faults of the program, by their places and then by number, each once.
    Types(Vec<TypeFault>),
    /// Memory is wanting.
    Memory,
}

impl From<LexError> for FrontError {
    ghost use Rattle.std.specs.Prelude.{◌≡◌};
    ghost use Rattle.front_end.specs.Errors.{lex_error};

    ghost from_gives = { λ e r. r ≡ lex_error e };

    fn from(error: LexError) -> Self {
        match error {
            LexError::Fault(fault) => FrontError::Lex(fault),
            LexError::Memory => FrontError::Memory,
        }
    }
}

impl From<TypeError> for FrontError {
    ghost use Rattle.std.specs.Prelude.{◌≡◌};
    ghost use Rattle.front_end.specs.Errors.{type_error};

    ghost from_gives = { λ e r. r ≡ type_error e };

    fn from(error: TypeError) -> Self {
        match error {
            TypeError::Faults(faults) => FrontError::Types(faults),
            TypeError::Memory => FrontError::Memory,
        }
    }
}
