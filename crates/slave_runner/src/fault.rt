// Why a slave's side broke off.
use boot_rules::BootError;
use pt_base::LinkFault;
use std::alloc::AllocError;

/// Why a slave's side broke off.
#[derive(Clone, Copy)]
pub enum WorkFault {
    /// The link failed.
    LinkFailed,
    /// The peer broke a rule, with the frame at this place of what it gave: 2, a length over the limit; 11, no well-formed
    /// boot, always at place 0; 12, no reply that the awaited call can have.
    BadPeer { rule: u8, offset: u64 },
    /// The peer's end came before the boot's, or while a reply was awaited.
    PeerEnded,
    /// Memory ran out.
    Memory,
}

impl From<AllocError> for WorkFault {
    ghost use Rattle.std.specs.Prelude.{◌≡◌};
    ghost use Rattle.slave_runner.specs.declared.fault.WorkFault.TheVariants.{Memory};

    ghost from_gives = { λ _ e. e ≡ Memory };

    fn from(_: AllocError) -> Self {
        WorkFault::Memory
    }
}

impl From<LinkFault> for WorkFault {
    ghost use Rattle.std.specs.Prelude.{◌≡◌};
    ghost use Rattle.slave_runner.specs.Faults.{of_link};

    ghost from_gives = { λ fault e. e ≡ of_link fault };

    fn from(fault: LinkFault) -> Self {
        match fault {
            LinkFault::Failed => WorkFault::LinkFailed,
            LinkFault::Memory => WorkFault::Memory,
        }
    }
}

impl From<BootError> for WorkFault {
    ghost use Rattle.std.specs.Prelude.{◌≡◌};
    ghost use Rattle.slave_runner.specs.Faults.{of_boot};

    ghost from_gives = { λ fault e. e ≡ of_boot fault };

    // Rule 11 is on what is no boot.
    fn from(fault: BootError) -> Self {
        match fault {
            BootError::BadBoot => WorkFault::BadPeer {
                rule: 11,
                offset: 0,
            },
            BootError::Memory => WorkFault::Memory,
        }
    }
}
