// Why a run broke off.
use pt_base::{LinkFault, SinkFault};
use std::alloc::AllocError;
use wire::WireError;

/// Why a run broke off.
#[derive(Clone, Copy)]
pub enum RunFault {
    /// The link failed.
    LinkFailed,
    /// What takes the output failed.
    SinkFailed,
    /// The peer broke a rule, with the frame at this place of what it gave.
    BadPeer { rule: u8, offset: u64 },
    /// The peer's end came before an end of the run.
    PeerEnded,
    /// Memory ran out.
    Memory,
}

impl From<AllocError> for RunFault {
    ghost use Rattle.std.specs.Prelude.{◌≡◌};
    ghost use Rattle.pair_runner.specs.declared.fault.RunFault.TheVariants.{Memory};

    ghost from_gives = { λ _ e. e ≡ Memory };

    fn from(_: AllocError) -> Self {
        RunFault::Memory
    }
}

impl From<LinkFault> for RunFault {
    ghost use Rattle.std.specs.Prelude.{◌≡◌};
    ghost use Rattle.pair_runner.specs.Faults.{of_link};

    ghost from_gives = { λ fault e. e ≡ of_link fault };

    fn from(fault: LinkFault) -> Self {
        match fault {
            LinkFault::Failed => RunFault::LinkFailed,
            LinkFault::Memory => RunFault::Memory,
        }
    }
}

impl From<SinkFault> for RunFault {
    ghost use Rattle.std.specs.Prelude.{◌≡◌};
    ghost use Rattle.pair_runner.specs.Faults.{of_sink};

    ghost from_gives = { λ fault e. e ≡ of_sink fault };

    fn from(fault: SinkFault) -> Self {
        match fault {
            SinkFault::Failed => RunFault::SinkFailed,
            SinkFault::Memory => RunFault::Memory,
        }
    }
}

impl From<WireError> for RunFault {
    ghost use Rattle.std.specs.Prelude.{◌≡◌};
    ghost use Rattle.pair_runner.specs.Faults.{of_frame};

    ghost from_gives = { λ fault e. e ≡ of_frame fault };

    // The first rule is on frames that spell no message, the second on long ones.
    fn from(fault: WireError) -> Self {
        match fault {
            WireError::BadFrame(offset) => RunFault::BadPeer { rule: 1, offset },
            WireError::TooLong(offset) => RunFault::BadPeer { rule: 2, offset },
            WireError::Memory => RunFault::Memory,
        }
    }
}
