// What takes the program's output.
ghost use Rattle.std.specs.Prelude.{ℕ, List, OnOk, OnErr, Option};
ghost use Rattle.std.specs.Io.KnownBytes.{Appends};
ghost use Rattle.pt_base.specs.Faults.{HasCause};
ghost use Rattle.pt_base.specs.Told.{AppendsPart};

use std::alloc::{AllocError, Global};

/// Why a sink didn't take bytes.
#[derive(Clone, Copy)]
pub enum SinkFault {
    /// They can't be written.
    Failed,
    /// Want of memory.
    Memory,
}

impl From<AllocError> for SinkFault {
    ghost use Rattle.std.specs.Prelude.{◌≡◌};
    ghost use Rattle.pt_base.specs.declared.sink.SinkFault.TheVariants.{Memory};

    ghost from_gives = { λ _ e. e ≡ Memory };

    fn from(_: AllocError) -> Self {
        SinkFault::Memory
    }
}

/// What takes bytes. The bytes that it has taken are told optionally; its count of faults never
/// falls, and a write raises it by one at most and not at all where the bytes are taken or memory is
/// wanting.
pub trait Sink {
    /// The bytes that it has taken.
    ghost taken: { Self → Option (List ℕ) };

    /// How many writes failed.
    ghost faults: { Self → ℕ };

    /// Appends the bytes. After a refusal it has taken a first part of them, maybe none. Failed
    /// comes only where the count of faults rose.
    fn write(&mut self, alloc: Global, bytes: &[u8]) -> Result<(), SinkFault>
        ensures ok { OnOk result (Appends (taken self.old) (taken self.new) bytes.now) }
        ensures err { OnErr result (AppendsPart (taken self.old) (taken self.new) bytes.now) }
        ensures cause { HasCause (faults self.old) (faults self.new) result SinkFault.Failed SinkFault.Memory };
}
