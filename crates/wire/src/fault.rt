// Why bytes are no message.
use std::alloc::{AllocError, AllocFailed};

/// What can be wrong with the frame at the front of a reader.
#[derive(Clone, Copy)]
pub enum FrameFault {
    /// A whole frame spells no message.
    BadFrame,
    /// A length is over the limit.
    TooLong,
}

/// Why a reader gives no message.
#[derive(Clone, Copy)]
pub enum WireError {
    /// The whole frame at this offset spells no message.
    BadFrame(u64),
    /// The length at this offset is over 16,777,216.
    TooLong(u64),
    /// Memory ran out.
    Memory,
}

/// Why a payload isn't read.
#[derive(Clone, Copy)]
pub(crate) enum ReadError {
    /// The bytes are no message's payload.
    Bad,
    /// Memory ran out.
    Memory,
}

impl From<AllocError> for ReadError {
    ghost use Rattle.std.specs.Prelude.{◌≡◌};
    ghost use Rattle.wire.specs.declared.fault.ReadError.TheVariants.{Memory};

    ghost from_gives = { λ _ e. e ≡ Memory };

    fn from(_: AllocError) -> Self {
        ReadError::Memory
    }
}

impl<T: Drop> From<AllocFailed<T>> for ReadError {
    ghost use Rattle.std.specs.Prelude.{◌≡◌};
    ghost use Rattle.wire.specs.declared.fault.ReadError.TheVariants.{Memory};

    ghost from_gives = { λ _ e. e ≡ Memory };

    fn from(_: AllocFailed<T>) -> Self {
        ReadError::Memory
    }
}

impl From<AllocError> for WireError {
    ghost use Rattle.std.specs.Prelude.{◌≡◌};
    ghost use Rattle.wire.specs.declared.fault.WireError.TheVariants.{Memory};

    ghost from_gives = { λ _ e. e ≡ Memory };

    fn from(_: AllocError) -> Self {
        WireError::Memory
    }
}
