// Sums of numbers: memory is wanting where the type doesn't hold one.
ghost use Rattle.std.specs.Prelude.{◌≡◌, ◌+◌, IfOk};

use std::alloc::AllocError;

/// The index behind this one.
pub(crate) fn next_index(index: usize) -> Result<usize, AllocError>
    ensures { IfOk result (λ n. n ≡ index + 1) }
{
    match index.checked_add(1) {
        Some(next) => Ok(next),
        None => Err(AllocError),
    }
}

/// The number behind this one.
pub(crate) fn next_number(number: u32) -> Result<u32, AllocError>
    ensures { IfOk result (λ n. n ≡ number + 1) }
{
    match number.checked_add(1) {
        Some(next) => Ok(next),
        None => Err(AllocError),
    }
}
