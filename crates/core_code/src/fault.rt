// Why an evaluation breaks off.
use pt_base::{Span, Trap};
use std::alloc::{AllocError, AllocFailed};

/// Why an evaluation breaks off.
#[derive(Clone, Copy)]
pub enum Fault {
    /// The program's run does, at this place of the text.
    Trapped(Trap, Span),
    /// Memory is wanting, or an address has no 32 bits.
    Memory,
}

impl From<AllocError> for Fault {
    ghost use Rattle.std.specs.Prelude.{◌≡◌};
    ghost use Rattle.core_code.specs.declared.fault.Fault.TheVariants.{Memory};

    ghost from_gives = { λ _ e. e ≡ Memory };

    fn from(_: AllocError) -> Self {
        Fault::Memory
    }
}

impl<T: Drop> From<AllocFailed<T>> for Fault {
    ghost use Rattle.std.specs.Prelude.{◌≡◌};
    ghost use Rattle.core_code.specs.declared.fault.Fault.TheVariants.{Memory};

    ghost from_gives = { λ _ e. e ≡ Memory };

    fn from(_: AllocFailed<T>) -> Self {
        Fault::Memory
    }
}
