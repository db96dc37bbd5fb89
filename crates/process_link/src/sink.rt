// A standard stream as a sink. It tells nothing of what it took.
ghost use Rattle.std.specs.Prelude.{◌≡◌, None};

use crate::output::Output;
use pt_base::{Sink, SinkFault};
use std::alloc::Global;
use std::io::ErrorKind;
use std::os::fd::AsFd;

/// A standard stream. A write that nobody reads fails, and raises no signal.
#[derive(Drop)]
pub struct RealSink {
    out: Output,
    faults: u64,
}

impl RealSink {
    /// The file of this stream as a sink; no write has failed so far.
    pub fn new(stream: &impl AsFd) -> Self
        ensures { result.faults ≡ 0 }
    {
        RealSink {
            out: Output::of(stream),
            faults: 0,
        }
    }
}

impl Sink for RealSink {
    ghost taken = { λ _. None };

    ghost faults = { λ s. s.faults };

    fn write(&mut self, _alloc: Global, bytes: &[u8]) -> Result<(), SinkFault> {
        match self.out.write_all(bytes) {
            Ok(()) => Ok(()),
            Err(e) => match e.kind() {
                ErrorKind::OutOfMemory => Err(SinkFault::Memory),
                _ => {
                    self.faults = self.faults.saturating_add(1);
                    Err(SinkFault::Failed)
                }
            },
        }
    }
}
