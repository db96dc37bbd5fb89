// Why a hub refuses a call.
use std::alloc::{AllocError, AllocFailed};

/// Why a hub does nothing, or closes a session where memory ran out in one of its messages.
#[derive(Clone, Copy, Debug)]
pub enum HubError {
    /// As many sessions are open as may be.
    Full,
    /// No session of this number is open.
    NotOpen,
    /// Memory ran out.
    Memory,
}

impl HubError {
    ghost use Rattle.std.specs.Prelude.{◌≡◌};
    ghost use Rattle.sessions.specs.ErrorNumbers.{error_number};

    /// The number of a refusal, from 1 on. Want of memory has none.
    pub fn number(self) -> Option<u8>
        ensures { result ≡ error_number self }
    {
        match self {
            HubError::Full => Some(1),
            HubError::NotOpen => Some(2),
            HubError::Memory => None,
        }
    }
}

impl From<AllocError> for HubError {
    ghost use Rattle.std.specs.Prelude.{◌≡◌};
    ghost use Rattle.sessions.specs.declared.error.HubError.TheVariants.{Memory};

    ghost from_gives = { λ _ e. e ≡ Memory };

    fn from(_: AllocError) -> Self {
        HubError::Memory
    }
}

impl<T: Drop> From<AllocFailed<T>> for HubError {
    ghost use Rattle.std.specs.Prelude.{◌≡◌};
    ghost use Rattle.sessions.specs.declared.error.HubError.TheVariants.{Memory};

    ghost from_gives = { λ _ e. e ≡ Memory };

    fn from(_: AllocFailed<T>) -> Self {
        HubError::Memory
    }
}
