// What takes the output of both halves.
use pt_base::{Sink, SinkFault};
use std::alloc::Global;

/// The bytes that were written. Nothing but want of memory refuses more.
#[derive(Drop)]
pub(crate) struct Written {
    bytes: Vec<u8>,
}

impl Written {
    ghost use Rattle.std.specs.Prelude.{◌≡◌, []};

    /// Nothing was written yet.
    pub(crate) fn new(alloc: Global) -> Written
        ensures { result.bytes.items ≡ [] }
    {
        Written {
            bytes: Vec::new(alloc),
        }
    }

    /// All bytes.
    pub(crate) fn into_vec(self) -> Vec<u8>
        ensures { result.items ≡ self.bytes.items }
    {
        self.bytes
    }
}

impl Sink for Written {
    ghost use Rattle.std.specs.Prelude.{Some};

    ghost taken = { λ w. Some w.bytes.items };

    ghost faults = { λ w. 0 };

    fn write(&mut self, _alloc: Global, bytes: &[u8]) -> Result<(), SinkFault> {
        self.bytes.extend_from_slice(bytes)?;
        Ok(())
    }
}
