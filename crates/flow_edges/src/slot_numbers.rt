// Numbers of slots.
ghost use Rattle.std.specs.Prelude.{◌≡◌, ◌+◌, IfOk};

use std::alloc::AllocError;

/// The slot so far behind this one. 2^64 slots don't fit into memory.
pub fn behind(slot: u64, by: u64) -> Result<u64, AllocError>
    ensures { IfOk result (λ s. s ≡ slot + by) }
{
    match slot.checked_add(by) {
        Some(behind) => Ok(behind),
        None => Err(AllocError),
    }
}
