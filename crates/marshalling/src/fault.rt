// Why a body is refused.
use std::alloc::{AllocError, AllocFailed};

/// Why a call isn't one for a signature, or can't be served.
#[derive(Clone, Copy)]
pub enum BadCall {
    /// Its body isn't one for the signature.
    Shape,
    /// The store has no value with this handle.
    BadHandle(u64),
    /// The value with this handle has another type than its parameter or cell.
    WrongType(u64),
    /// Memory ran out.
    Memory,
}

impl From<AllocError> for BadCall {
    ghost use Rattle.std.specs.Prelude.{◌≡◌};
    ghost use Rattle.marshalling.specs.declared.fault.BadCall.TheVariants.{Memory};

    ghost from_gives = { λ _ e. e ≡ Memory };

    fn from(_: AllocError) -> Self {
        BadCall::Memory
    }
}

impl<T: Drop> From<AllocFailed<T>> for BadCall {
    ghost use Rattle.std.specs.Prelude.{◌≡◌};
    ghost use Rattle.marshalling.specs.declared.fault.BadCall.TheVariants.{Memory};

    ghost from_gives = { λ _ e. e ≡ Memory };

    fn from(_: AllocFailed<T>) -> Self {
        BadCall::Memory
    }
}

/// Why a reply isn't taken.
#[derive(Clone, Copy)]
pub enum BadReply {
    /// It isn't one that the signature and the arguments give with the next handles.
    Shape,
    /// Memory ran out.
    Memory,
}

impl From<AllocError> for BadReply {
    ghost use Rattle.std.specs.Prelude.{◌≡◌};
    ghost use Rattle.marshalling.specs.declared.fault.BadReply.TheVariants.{Memory};

    ghost from_gives = { λ _ e. e ≡ Memory };

    fn from(_: AllocError) -> Self {
        BadReply::Memory
    }
}
