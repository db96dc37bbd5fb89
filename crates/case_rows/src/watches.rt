// What is told of the front end's work on functions.
use pt_base::{FnId, Watch};
use std::alloc::{AllocError, Global};
use std::sync::atomic::{AtomicU64, Ordering};

/// So often a function that is held looks whether another one has begun.
const LOOKS: u64 = 100_000_000;

/// Of so many functions the beginnings are counted, from the first one on.
const COUNTED: usize = 8;

/// Is told of the front end's work, and does nothing.
pub struct Silent;

impl Watch for Silent {
    fn begin(&self, _f: FnId) {}
}

/// Holds each function that begins as the first, the third or the fifth until another one has begun, or for some
/// time, and counts how often each of the first eight functions begins.
#[derive(Drop)]
pub struct Meetings {
    begun: AtomicU64,
    met: AtomicU64,
    times: Vec<AtomicU64>,
}

impl Meetings {
    /// No function has begun.
    ///
    /// # Errors
    ///
    /// Want of memory.
    pub fn new(alloc: Global) -> Result<Meetings, AllocError> {
        let mut times = Vec::new(alloc);
        for _ in 0..COUNTED {
            times.push(AtomicU64::new(0))?;
        }
        Ok(Meetings {
            begun: AtomicU64::new(0),
            met: AtomicU64::new(0),
            times,
        })
    }

    /// Whether a function that was held saw another one begin.
    pub fn told(&self) -> &'static str {
        if self.met.load(Ordering::SeqCst) > 0 {
            "at once"
        } else {
            "one by one"
        }
    }

    /// Appends how many functions saw another one begin while they were held, and the number of each function
    /// that has begun, with how often.
    ///
    /// # Errors
    ///
    /// Want of memory.
    pub fn push_told(&self, told: &mut String) -> Result<(), AllocError> {
        write!(told, "met {} times, begun", self.met.load(Ordering::SeqCst))?;
        for (number, times) in self.times.iter().enumerate() {
            let times = times.load(Ordering::SeqCst);
            if times > 0 {
                write!(told, " {number}×{times}")?;
            }
        }
        Ok(())
    }

    // Waits until more than so many functions have begun, or for some time.
    fn hold(&self, begun: u64) {
        for _ in 0..LOOKS {
            if self.begun.load(Ordering::SeqCst) > begun {
                self.met.fetch_add(1, Ordering::SeqCst);
                return;
            }
        }
    }
}

impl Watch for Meetings {
    fn begin(&self, f: FnId) {
        if let Some(times) = self.times.get(f.0 as usize) {
            times.fetch_add(1, Ordering::SeqCst);
        }
        let before = self.begun.fetch_add(1, Ordering::SeqCst);
        if before % 2 == 0 {
            self.hold(before.saturating_add(1));
        }
    }
}
