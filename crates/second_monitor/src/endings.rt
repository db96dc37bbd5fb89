// How runs end.
use crate::reading::Unread;
use std::alloc::{AllocError, AllocFailed, Global};

/// How a run ends.
#[derive(Clone, Copy)]
pub enum Ending {
    /// With the status as an unsigned number.
    Exit(u64),
    /// With the trap's number and its place.
    Trap(u8, u64, u64),
    Spent,
    /// With the guarded call's number and the function.
    Refused(u64, u64),
    /// With the number of the rule that was broken.
    Bad(u8),
}

/// Why serving goes no further.
pub enum Stop {
    Ends(Ending),
    Memory,
}

impl From<AllocError> for Stop {
    fn from(_: AllocError) -> Self {
        Stop::Memory
    }
}

impl<T: Drop> From<AllocFailed<T>> for Stop {
    fn from(_: AllocFailed<T>) -> Self {
        Stop::Memory
    }
}

impl From<Unread> for Stop {
    fn from(fault: Unread) -> Self {
        match fault {
            Unread::NoMessage => Stop::Ends(Ending::Bad(1)),
            Unread::Memory => Stop::Memory,
        }
    }
}

impl Ending {
    /// In words, at the frame of this place and in this state of the policy.
    ///
    /// # Errors
    ///
    /// Want of memory.
    pub fn told(self, alloc: Global, offset: usize, state: &str) -> Result<String, AllocError> {
        match self {
            Ending::Exit(status) if status < 0x8000_0000 => format!(in alloc; "exit {status}"),
            Ending::Exit(status) => {
                let below = 0x1_0000_0000_u64.saturating_sub(status);
                format!(in alloc; "exit -{below}")
            }
            Ending::Trap(kind, from, to) => {
                let name = trap_name(kind);
                format!(in alloc; "trap {name} {from}..{to}")
            }
            Ending::Spent => String::from_str(alloc, "spent"),
            Ending::Refused(call, function) => {
                format!(in alloc; "refused {call} {function} {state}")
            }
            Ending::Bad(rule) => format!(in alloc; "bad peer {rule} {offset}"),
        }
    }
}

fn trap_name(kind: u8) -> &'static str {
    match kind {
        1 => "Overflow",
        2 => "DivZero",
        3 => "Shift",
        4 => "Bounds",
        5 => "Null",
        6 => "PtrRange",
        7 => "PtrCompare",
        8 => "Depth",
        _ => "NoReturn",
    }
}
