// How long an input may be, and what is written.
ghost use Rattle.std.specs.Prelude.{◌≤◌, ◌^◌, OnOk, length};

use std::alloc::AllocError;

/// An input may have this many bytes.
pub const INPUT_LIMIT: usize = 1_048_576;

/// The most bytes of the lines of slots, of those of faults of flows, and of an explanation, a picture or an outline.
/// What has more is answered as want of memory, so that what is written is bounded however many faults a text has,
/// and however long names and ways are.
pub const MOST_BYTES: usize = 134_217_728;

/// Whether what is written is no longer than it may be.
///
/// # Errors
///
/// Want of memory, where it is longer.
pub fn room_for(text: &[u8]) -> Result<(), AllocError>
    ensures { OnOk result (length text.now ≤ 2 ^ 27) }
{
    if text.len() > MOST_BYTES {
        return Err(AllocError);
    }
    Ok(())
}
